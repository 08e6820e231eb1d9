// The size of an image.

// The most bytes that an image has: 16 components with 4 bits each, and 64 elements with 16.
pub const IMAGE_BYTES: usize = 136;
