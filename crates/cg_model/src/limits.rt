//! The limits on what is read, mapped and run.

/// The greatest number of nodes of a kernel.
pub const MOST_NODES: usize = 1024;

/// The greatest length of a node's name, in characters.
pub const LONGEST_NODE_NAME: usize = 32;

/// The greatest number of order edges of a kernel.
pub const MOST_ORDER_EDGES: usize = 4096;

/// The greatest distance of a data edge, in turns.
pub const MOST_DISTANCE: u32 = 4;

/// The greatest distance of an order edge, in turns.
pub const MOST_ORDER_DISTANCE: u32 = 255;

/// The number of ports of a kernel and of an array, and so of streams of an image.
pub const PORTS: usize = 16;

/// The number of the last port.
pub const LAST_PORT: u32 = 15;

/// The greatest number of turns of a run.
pub const MOST_TURNS: u32 = 1_000_000;

/// The greatest length of an architecture's name and of an element's, in characters.
pub const LONGEST_NAME: usize = 40;

/// The greatest number of rows, and of columns, of a grid of tiles.
pub const MOST_SIDE: usize = 32;

/// The greatest number of slots of a configuration.
pub const MOST_CONTEXTS: u32 = 64;

/// The greatest number of resources of an architecture.
pub const MOST_RESOURCES: usize = 4096;

/// The greatest number of links of an architecture.
pub const MOST_LINKS: usize = 65_536;

/// The greatest number of units of an architecture.
pub const MOST_UNITS: usize = 1024;

/// The greatest number of words of a memory.
pub const MOST_MEMORY: u32 = 1_048_576;

/// The greatest number of words of a stream, one for each turn.
pub const MOST_STREAM: u32 = MOST_TURNS;

/// The greatest number of moves of a search at one interval.
pub const MOST_MOVES: u32 = 1_000_000;

/// The latest time of a node, in cycles from its turn's start, and so the greatest stage.
pub const LATEST_TIME: u32 = 65_534;
