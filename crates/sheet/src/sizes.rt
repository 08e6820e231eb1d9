// The sizes of the format: the numbers of the sections, the bytes of a row of each, and the most rows.

pub const COMPONENTS: usize = 0;

pub const ELEMENTS: usize = 1;

pub const EVENTS: usize = 2;

pub const NODES: usize = 3;

pub const FLOWS: usize = 4;

pub const CONNECTIONS: usize = 5;

pub const TRANSITIONS: usize = 6;

pub const SETTINGS: usize = 7;

pub const QUESTIONS: usize = 8;

pub const COMPONENT_BYTES: usize = 2;

pub const ELEMENT_BYTES: usize = 8;

pub const EVENT_BYTES: usize = 2;

pub const NODE_BYTES: usize = 4;

pub const FLOW_BYTES: usize = 4;

pub const CONNECTION_BYTES: usize = 5;

pub const TRANSITION_BYTES: usize = 5;

pub const SETTING_BYTES: usize = 3;

pub const QUESTION_BYTES: usize = 1;

pub const MOST_COMPONENTS: u8 = 16;

pub const MOST_ELEMENTS: u8 = 64;

pub const MOST_EVENTS: u8 = 64;

pub const MOST_NODES: u8 = 128;

pub const MOST_FLOWS: u8 = 64;

pub const MOST_CONNECTIONS: u8 = 64;

pub const MOST_TRANSITIONS: u8 = 64;

pub const MOST_SETTINGS: u8 = 128;

pub const MOST_QUESTIONS: u8 = 16;

// The number of sections.
pub const SECTIONS: usize = 9;

// The ends of the number range.
pub const LEAST_NUMBER: i32 = -32768;

pub const GREATEST_NUMBER: i32 = 32767;

// The most bytes that a program reads of a sheet: more than the longest sheet, which has 2,489.
pub const INPUT_LIMIT: usize = 2500;
