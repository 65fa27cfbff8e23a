// The most lines of a wanted table.
pub const WANTED_LIMIT: usize = 32_768;

// The most lines that a device holds.
pub const DEVICE_LIMIT: usize = 16_384;
