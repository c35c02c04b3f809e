//! Laws that hold for every code, as clauses of functions that do nothing.

ghost use Rattle.reed_solomon.specs.Laws.{EveryMessageHasParity, CodewordsAreApart, CodewordsSumToZero, FewerErasuresRestoreTheSame, LostBytesAreCombinations, NearCodewordsAreEqual, OneLostByteIsASum};

/// Every message has parity bytes that complete it to a codeword.
pub fn every_message_has_parity()
    ensures { EveryMessageHasParity }
{}

/// Two codewords that agree everywhere except at no more positions than there are parity bytes are equal.
pub fn codewords_are_apart()
    ensures { CodewordsAreApart }
{}

/// At most one codeword differs from a word at no more than half as many positions as there are parity bytes.
pub fn near_codewords_are_equal()
    ensures { NearCodewordsAreEqual }
{}

/// The bytes of a codeword with parity sum to 0, by exclusive-or.
pub fn codewords_sum_to_zero()
    ensures { CodewordsSumToZero }
{}

/// Each byte of a codeword with parity is the exclusive-or of the other bytes.
pub fn one_lost_byte_is_a_sum()
    ensures { OneLostByteIsASum }
{}

/// Each lost byte of a codeword is a combination of the other bytes, by the factors of `factors`, if no more bytes are lost than
/// there are parity bytes.
pub fn lost_bytes_are_combinations()
    ensures { LostBytesAreCombinations }
{}

/// A word that the code restored at some positions has the bytes that it restores if fewer of them are lost.
pub fn fewer_erasures_restore_the_same()
    ensures { FewerErasuresRestoreTheSame }
{}
