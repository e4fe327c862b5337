ghost use Rattle.record_blocks.specs.BlockLaws.{BlockIsDecoded, BlockIsOfOneList, ListHasOneBlock};
ghost use Rattle.record_blocks.specs.Pieces.{PiecesStandByNumber};

/// No bytes are the block text of two lists.
pub fn a_block_is_of_one_list()
    ensures { BlockIsOfOneList }
{}

/// A list has one block text.
pub fn a_list_has_one_block()
    ensures { ListHasOneBlock }
{}

/// What is decoded of the block text of a list is that list.
pub fn a_block_is_decoded()
    ensures { BlockIsDecoded }
{}

/// Each piece is found by its number, and how many there are.
pub fn pieces_stand_by_number()
    ensures { PiecesStandByNumber }
{}
