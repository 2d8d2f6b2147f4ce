// A list that is too short for a call.

// What is lent has no room for what goes there, or has too few bytes for what is read. It stays as it was. Both lengths are the
// caller's, so none is told; `NoRoom` tells one that `pack` alone works out.
#[derive(Clone, Copy, Debug, PartialEq, Eq)]
pub struct TooShort;
