//! A law of what a search reports: the function's contract states it, and a call of the function provides it.
ghost use Rattle.find_commands.specs.Laws.{ValidHeadersAreSound};

/// A LUKS2 header that is reported with a valid checksum has it: its sectors were read, as many as its size states, and the checksum is
/// that of their bytes.
pub fn valid_headers_are_sound()
    ensures { ValidHeadersAreSound }
{}
