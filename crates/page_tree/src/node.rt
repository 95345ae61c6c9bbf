// Nodes of the tree, and the places of what lies below them.
ghost use Rattle.std.specs.Prelude.{◌≡◌, ◌+◌, ◌-◌, ◌*◌, ◌^◌, ◌<◌, ◌≤◌};

/// A node: its level, and its index among the nodes of that level.
#[derive(Clone, Copy)]
pub struct Node {
    pub level: u32,
    pub index: u32,
}

/// The one node of the highest level.
pub const HIGHEST: Node = Node {
    level: 25,
    index: 0,
};

impl Node {
    /// The first label that lies below the right child.
    pub fn middle(self) -> u32
        requires above { 0 < self.level }
        requires small { self.level ≤ 25 }
        requires in_tree { (self.index + 1) * 2 ^ self.level ≤ 2 ^ 25 }
        ensures { result ≡ (2 * self.index + 1) * 2 ^ (self.level - 1) }
    {
        (2 * self.index + 1) * 2u32.pow(self.level - 1)
    }

    /// The left child.
    pub fn left(self) -> Node
        requires above { 0 < self.level }
        requires in_tree { (self.index + 1) * 2 ^ self.level ≤ 2 ^ 25 }
        ensures { result ≡ record { level = self.level - 1; index = 2 * self.index } }
    {
        Node {
            level: self.level - 1,
            index: 2 * self.index,
        }
    }

    /// The right child.
    pub fn right(self) -> Node
        requires above { 0 < self.level }
        requires in_tree { (self.index + 1) * 2 ^ self.level ≤ 2 ^ 25 }
        ensures { result ≡ record { level = self.level - 1; index = 2 * self.index + 1 } }
    {
        Node {
            level: self.level - 1,
            index: 2 * self.index + 1,
        }
    }
}

/// Places in a list, from the first up to and without the second.
#[derive(Clone, Copy)]
pub struct Places {
    pub from: usize,
    pub to: usize,
}

impl Places {
    /// Those up to and without a place.
    pub fn up_to(self, at: usize) -> Places
        ensures { result ≡ record { from = self.from; to = at } }
    {
        Places {
            from: self.from,
            to: at,
        }
    }

    /// Those from a place on.
    pub fn starting(self, at: usize) -> Places
        ensures { result ≡ record { from = at; to = self.to } }
    {
        Places {
            from: at,
            to: self.to,
        }
    }
}
