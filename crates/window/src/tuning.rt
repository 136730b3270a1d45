// What the driver of a question is tuned by: measured, and no promise depends on it.

// From this many records on a jump is cheaper than a window.
pub const FAR: u32 = 1024;

// The words of a window: few behind a jump, so that the records of a rare word cost little, and twice as many each time that no jump comes.
pub const LEAST: usize = 32;

pub const MOST: usize = 128;
