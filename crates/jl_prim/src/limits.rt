//! The limits of the profile.

/// Modules in one scan of a path, in one configuration and in all layers; configurations without the
/// empty one; layers without layer 0.
pub const MOST_MODULES: usize = 4_096;

/// Words of a command line.
pub const MOST_WORDS: usize = 65_536;

/// Folders listed in one scan of a path.
pub const MOST_FOLDERS: usize = 65_536;

/// Bytes of a class file or of a declaration file: 4 MiB.
pub const MOST_FILE_BYTES: usize = 4_194_304;

/// Defined classes.
pub const MOST_CLASSES: usize = 65_536;

/// Slots of the heap.
pub const MOST_HEAP_SLOTS: u64 = 16_777_216;

/// Frames of one task.
pub const MOST_FRAMES: usize = 2_048;

/// Slots of all frames together.
pub const MOST_FRAME_SLOTS: u64 = 4_194_304;

/// Classes that wait for their supertypes at once.
pub const MOST_WAITING_CLASSES: usize = 1_024;

/// The greatest bound on steps.
pub const MOST_STEPS: u64 = 18_446_744_073_709_551_615;

/// The bound on steps where none is given.
pub const USUAL_STEPS: u64 = 100_000_000;

/// Modules of a sample tree.
pub const MOST_SAMPLE_MODULES: u32 = 1_000;
