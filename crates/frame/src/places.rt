// Where the fields stand: of the header in a message, of an entry in its bytes.
pub const VERSION: usize = 1;

pub const SIZE: usize = 3;

pub const TYPE: usize = 7;

pub const MESSAGE_COUNT: usize = 8;

// A command's and a response's.
pub const HANDLE: usize = 4;

pub const COMMAND_TARGET: usize = 8;

pub const COMMAND_METHOD: usize = 12;

pub const COMMAND_COUNT: usize = 16;

pub const NOTIFICATION_TARGET: usize = 4;

pub const NOTIFICATION_METHOD: usize = 8;

pub const NOTIFICATION_COUNT: usize = 12;

pub const CONTEXT_COUNT: usize = 13;

pub const CONTEXT: usize = 15;

// Behind an empty context: each byte of a context moves them on by one.
pub const EMITTER: usize = 15;

pub const EVENT: usize = 19;

pub const STATUS: usize = 8;

pub const RESPONSE_COUNT: usize = 9;
