// The fixed fields of a file's header (document 01, "The file").
// the magic number: bytes 52 54 58 43 00 00 00 00, low byte first
pub const MAGIC_NUMBER: u64 = 0x4358_5452;
// the file's version
pub const FILE_VERSION: u16 = 1;
