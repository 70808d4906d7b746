//! What a file is, piece by piece. A law is the contract of a function that does nothing.

ghost use Rattle.std.specs.Prelude.{◌≡◌, List, [], ◌∷◌, ◌++◌};
ghost use Rattle.cd_block.specs.declared.block.Block.{Block};
ghost use Rattle.cd_block.specs.declared.params.Params.{Params};
ghost use Rattle.cd_file.specs.Files.{file_head, block_spelling, file_begun, file_end, file_of};
ghost use Rattle.cd_file.specs.ReadBack.{FileIsReadBack, OpenFileIsReadBack, FileIsKept};
ghost use Rattle.cd_file.specs.FileGrowth.{FilesGrow};
ghost use Rattle.cd_file.specs.PartsInBytes.{PartsHaveBytes, BlocksHaveParams};
ghost use Rattle.cd_file.specs.ReadRanges.{ReadInRange};

/// A head, then each block in turn, then the end are the file of these parameters and blocks.
pub fn a_file_grows_by_its_blocks()
    ensures begins { (params : Params) → file_begun params [] ≡ file_head params }
    ensures grows { (params : Params) (blocks : List Block) (block : Block) →
        file_begun params (blocks ++ block ∷ []) ≡ file_begun params blocks ++ block_spelling block }
    ensures ends { (params : Params) (blocks : List Block) →
        file_of params blocks ≡ file_begun params blocks ++ file_end }
{}

/// What is written is read back, where its numbers lie in the ranges in which they are read. The file of one set of block
/// parameters and of some blocks is read as these and ends whole, and a file whose array of blocks is still open is read as
/// the blocks so far. With each value in its place, blocks that resolve are read as the kept blocks.
pub fn what_is_written_is_read_back()
    ensures whole { FileIsReadBack }
    ensures begun { OpenFileIsReadBack }
    ensures kept { FileIsKept }
{}

/// As the bytes of a file go on, the block parameters and the blocks that were read stay, and more blocks may follow.
/// After a refusal nothing does.
pub fn files_grow()
    ensures { FilesGrow }
{}

/// Each block, item and malformed message of a file has a byte of its own, and the block parameters that a block names
/// are there.
pub fn parts_have_bytes()
    ensures parts { PartsHaveBytes }
    ensures params { BlocksHaveParams }
{}

/// What any bytes give as a file, with each value in its place, lies in the ranges in which it is read; nothing beyond them
/// is given.
pub fn what_is_read_is_in_range()
    ensures { ReadInRange }
{}
