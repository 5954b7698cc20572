// The five whole-run walkers.
use std::fmt;

#[derive(Clone, Copy, PartialEq, Eq)]
pub(crate) enum Walker {
    DfsRecursive,
    DfsParent,
    DfsArray,
    BfsQueue,
    BfsFolded,
}

impl Walker {
    pub(crate) const ALL: [Walker; 5] = [
        Walker::DfsRecursive,
        Walker::DfsParent,
        Walker::DfsArray,
        Walker::BfsQueue,
        Walker::BfsFolded,
    ];

    // Whether it searches breadth-first.
    pub(crate) fn is_breadth_first(self) -> bool {
        match self {
            Walker::BfsQueue | Walker::BfsFolded => true,
            Walker::DfsRecursive | Walker::DfsParent | Walker::DfsArray => false,
        }
    }

    // How many words of its own it needs for n vertices.
    pub(crate) fn own_words(self, n: u16) -> u16 {
        match self {
            Walker::DfsParent | Walker::DfsArray | Walker::BfsQueue => n,
            Walker::DfsRecursive | Walker::BfsFolded => 0,
        }
    }
}

impl fmt::Display for Walker {
    fn fmt<W: fmt::Write>(&self, f: &mut fmt::Formatter<W>) -> fmt::Result {
        match self {
            Walker::DfsRecursive => write!(f, "dfs_recursive"),
            Walker::DfsParent => write!(f, "dfs_parent"),
            Walker::DfsArray => write!(f, "dfs_array"),
            Walker::BfsQueue => write!(f, "bfs_queue"),
            Walker::BfsFolded => write!(f, "bfs_folded"),
        }
    }
}
