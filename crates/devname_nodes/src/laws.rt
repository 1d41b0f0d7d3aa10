// What is written is read back.
ghost use Rattle.devname_nodes.specs.File.{AreReadBack};

/// States that the modules.devname written of a tree is read back as the tree's nodes, if its
/// modules have words of visible characters for names.
pub fn nodes_are_read_back()
    ensures { AreReadBack }
{}
