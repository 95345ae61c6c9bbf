// What holds of every tree, whatever code runs. A law is the contract of a function without a body.
ghost use Rattle.page_tree.specs.Laws.{ChainsOpen, ChainsShow, EachNodeHasAPlace, EachPlaceHasANode, HashedNodesHave64Bytes, NodesHave64Bytes, OpensAtRoot, OpensBelow, PagesHaveTheMapsBlocks, PagesLeaveTheNewBlocks, PathLeadsToTheRoot, PathsShow, StartLeavesHave64Bytes, TreesOpen, WalkTakesWhatItNeeds};

/// A walk leaves the siblings that it does not need.
pub fn a_walk_takes_what_it_needs()
    ensures { WalkTakesWhatItNeeds }
{}

/// A walk below a node that gives its digest opens what lies there, or there is a collision.
pub fn a_walk_opens_below()
    ensures { OpensBelow }
{}

/// An opening that gives a tree's root opens that tree, or there is a collision.
pub fn an_opening_opens_the_tree()
    ensures { OpensAtRoot }
{}

/// Each opening of a chain opens the tree that those before it left, or there is a collision.
pub fn a_chain_opens()
    ensures { ChainsOpen }
{}

/// A path to the root of a tree shows the leaf that it begins at, or there is a collision.
pub fn a_path_shows()
    ensures { PathsShow }
{}

/// A path to the last root of a chain shows a leaf of the last tree, or there is a collision.
pub fn a_chain_shows()
    ensures { ChainsShow }
{}

/// The siblings of a tree open it.
pub fn a_tree_opens()
    ensures { TreesOpen }
{}

/// The path of a tree leads to its root.
pub fn a_path_leads_to_the_root()
    ensures { PathLeadsToTheRoot }
{}

/// Where leaves have 64 bytes, so has each node of a tree, and each node that a walk hashes.
pub fn nodes_have_64_bytes()
    ensures tree { NodesHave64Bytes }
    ensures hashed { HashedNodesHave64Bytes }
{}

/// The nodes of a tree are those at its levels and places.
pub fn nodes_are_at_places()
    ensures each { EachPlaceHasANode }
    ensures only { EachNodeHasAPlace }
{}

/// The leaves at the start have 64 bytes.
pub fn start_leaves_have_64_bytes()
    ensures { StartLeavesHave64Bytes }
{}

/// Pages that a map opens begin and end with its blocks.
pub fn pages_are_blocks_of_the_map()
    ensures old { PagesHaveTheMapsBlocks }
    ensures new { PagesLeaveTheNewBlocks }
{}
