// The abstract specification: the definitions of documents 01 and 02 and the cases that hold them. There is no code here.
#![tactic(auto)]
