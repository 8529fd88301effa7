// The theorems of blocks. There is no code here: each function carries the theorem that its contract names.
ghost use Rattle.log_block.specs.Theorems.{ReadsBack, SameBytes, WritesBack};

// What is written of any records that a block may hold is accepted, and reads back record by record.
pub fn reads_back()
    ensures { ReadsBack }
{}

// An accepted block is the block of its records and its number.
pub fn writes_back()
    ensures { WritesBack }
{}

// Two accepted blocks with the same records, block number and objectives are the same bytes.
pub fn same_bytes()
    ensures { SameBytes }
{}
