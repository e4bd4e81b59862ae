// A comparison as text.
ghost use Rattle.std.specs.Prelude.{◌≡◌, ◌+◌, ◌<◌, ◌≤◌, ℕ, List, length, take, ◌∷◌, [], ◌++◌};
ghost use Rattle.records.specs.Layout.{image_record_count};
ghost use Rattle.imageio.specs.Printed.{digit as Printed·digit, decimal, number_then, line, lines_of, printed_of};
ghost use Rattle.imageio.specs.Texts.{digits_room, number_room, line_room, text_room};

use differences::difference::Difference;
use differences::listed::{Listed, list_differences};
use records::layout::IMAGE_RECORD_COUNT;
use records::status::{BAD_SHAPE, SUCCESSFUL};
use std::marker::Model;

// The most digits that a byte has, then a byte behind them, four times in a line.
const DIGITS_ROOM: usize = 3;

const NUMBER_ROOM: usize = DIGITS_ROOM + 1;

const LINE_ROOM: usize = 4 * NUMBER_ROOM;

const TEXT_ROOM: usize = LINE_ROOM * IMAGE_RECORD_COUNT;

// A text with room for a line for each record of an image.
#[derive(Drop)]
pub struct Text {
    room: [u8; TEXT_ROOM],
    len: usize,
}

impl Model for Text {
    ghost Value = { List ℕ };

    ghost view = { λ t. take t.len t.room };

    ghost invariant = { λ t. t.len ≤ text_room };
}

#[tactic(auto, unfolding(crate::specs::Printed::digit))]
fn digit(d: u8) -> u8
    requires { d < 10 }
    ensures { result ≡ Printed·digit d }
{
    b'0' + d
}

impl Text {
    fn new() -> Text
        ensures { result ≡ [] }
    {
        Text {
            room: [0; TEXT_ROOM],
            len: 0,
        }
    }

    pub fn as_bytes(&self) -> &[u8]
        ensures { result.now ≡ self.now }
    {
        &self.room[..self.len]
    }

    fn push(&mut self, b: u8)
        requires { length self.old < text_room }
        ensures { self.new ≡ self.old ++ b ∷ [] }
    {
        self.room[self.len] = b;
        self.len += 1;
    }

    #[tactic(auto, unfolding(crate::specs::Printed::decimal))]
    fn push_decimal(&mut self, n: u8)
        requires { length self.old + digits_room ≤ text_room }
        ensures written { self.new ≡ self.old ++ decimal n }
        ensures within { length self.new ≤ length self.old + digits_room }
    {
        if n >= 100 {
            self.push(digit(n / 100));
        }
        if n >= 10 {
            self.push(digit(n / 10 % 10));
        }
        self.push(digit(n % 10));
    }

    // A number and the byte behind it.
    #[tactic(auto, unfolding(crate::specs::Printed::number_then))]
    fn push_number(&mut self, n: u8, behind: u8)
        requires { length self.old + number_room ≤ text_room }
        ensures written { self.new ≡ self.old ++ number_then n behind }
        ensures within { length self.new ≤ length self.old + number_room }
    {
        self.push_decimal(n);
        self.push(behind);
    }

    #[tactic(auto, unfolding(crate::specs::Printed::line))]
    fn push_line(&mut self, d: Difference)
        requires { length self.old + line_room ≤ text_room }
        ensures written { self.new ≡ self.old ++ line d }
        ensures within { length self.new ≤ length self.old + line_room }
    {
        self.push_number(d.table, b' ');
        self.push_number(d.number, b' ');
        self.push_number(d.place, b' ');
        self.push_number(d.count, b'\n');
    }
}

// The lines of a list.
fn lines_text(list: &[Difference]) -> Text
    requires { length list.now ≤ image_record_count }
    ensures { result ≡ lines_of list.now }
{
    let mut text = Text::new();
    for d in list {
        text.push_line(*d);
    }
    text
}

// A number alone in a line.
fn number_text(n: u8) -> Text
    ensures { result ≡ number_then n 10 }
{
    let mut text = Text::new();
    text.push_number(n, b'\n');
    text
}

// The differences of two images, or the status alone where they can't be compared.
pub fn differences_text(one: &[u8], two: &[u8]) -> Text
    ensures { result ≡ printed_of one.now two.now }
{
    let Listed { answer, list } = list_differences(one, two);
    if answer.status != u32::from(SUCCESSFUL) {
        return number_text(BAD_SHAPE);
    }
    let found = answer.value as usize;
    lines_text(&list[..found])
}
