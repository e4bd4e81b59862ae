// Document 01, "Tables": how many records each table has, how many bytes a record has, where its fields stand, and where a table stands in
// an image.
use ranks::Positions;

pub const CAPACITY: usize = 120;

pub const LARGEST_LIMIT: usize = 16;

pub const SLOT_COUNT: usize = 16;

pub const QUEUE_WIDTH: usize = 16;

pub const QUEUES_SIZE: usize = SLOT_COUNT * QUEUE_WIDTH;

pub const BUFFER_COUNT: usize = 64;

pub const BUFFER_WIDTH: usize = BUFFER_DATA + CAPACITY;

pub const POOL_SIZE: usize = BUFFER_COUNT * BUFFER_WIDTH;

pub const TASK_COUNT: usize = 32;

pub const TASK_WIDTH: usize = TASK_DATA + CAPACITY;

pub const TASKS_SIZE: usize = TASK_COUNT * TASK_WIDTH;

// "An image is the three tables in this order": where each table stands in it, its size, and how many records it has.
pub const QUEUES_PLACE: usize = 0;

pub const POOL_PLACE: usize = QUEUES_PLACE + QUEUES_SIZE;

pub const TASKS_PLACE: usize = POOL_PLACE + POOL_SIZE;

pub const IMAGE_SIZE: usize = TASKS_PLACE + TASKS_SIZE;

pub const IMAGE_RECORD_COUNT: usize = SLOT_COUNT + BUFFER_COUNT + TASK_COUNT;

pub const SHARE_COUNT: usize = 4;

// "Share p (0 to 3) owns slots 4p to 4p+3, buffers 16p to 16p+15, tasks 8p to 8p+7."
pub const SLOTS_PER_SHARE: usize = 4;

pub const BUFFERS_PER_SHARE: usize = 16;

pub const TASKS_PER_SHARE: usize = 8;

// A slot with this generation is spent.
pub const LAST_GENERATION: u16 = 65535;

// The place of a field in its record: of the position (queue, then rank), of a message's length, of its bytes.
pub const BUFFER_POSITION: usize = 0;

pub const BUFFER_LENGTH: usize = 2;

pub const BUFFER_DATA: usize = 8;

pub const TASK_POSITION: usize = 1;

pub const TASK_LENGTH: usize = 5;

pub const TASK_DATA: usize = 16;

// Where the messages stand in their queues.
pub const MESSAGE_POSITIONS: Positions = Positions {
    stride: BUFFER_WIDTH,
    place: BUFFER_POSITION,
    count: BUFFER_COUNT,
};

// Where the waiting tasks stand in their queues.
pub const WAITER_POSITIONS: Positions = Positions {
    stride: TASK_WIDTH,
    place: TASK_POSITION,
    count: TASK_COUNT,
};
