//! AES on single blocks of 16 bytes, with keys of 16 and 32 bytes (FIPS 197).
//!
//! A block is treated as a *state*: four rows and four columns of bytes, filled column by column. A byte is an
//! element of the field of 256 elements: a polynomial whose coefficients are its bits. Addition is xor;
//! multiplication is modulo x^8 + x^4 + x^3 + x + 1 (`field`).
//!
//! The key expansion derives a round key of 16 bytes for each round, and one more, from the key (`key_expansion`).
//! The cipher (`cipher`) adds the first round key to the state and then runs 10 rounds for a key of 16 bytes, 14 for
//! a key of 32. A round replaces each byte by an affine map of its inverse in the field (`s_box`), rotates row r left
//! by r, multiplies each column by a fixed matrix, and adds its round key (`rounds`); the last round omits the
//! matrix. Decryption undoes these steps in reverse order.
//!
//! The code holds the four columns of the state as words and computes a round by table lookups: a table holds the
//! result of the round's maps for each value of a byte (`encryption_tables`, `decryption_tables`). The definitions
//! keep the maps of the standard.
//!
//! Start at `AesKey` and continue with `cipher`, `rounds` and `columns`. `specs/` defines the result of each function
//! in the standard's order and terms; `proofs/ExampleRows.antt` computes the standard's examples by these
//! definitions.
#![tactic(auto)]

mod aes_key;
mod blocks;
mod cipher;
mod columns;
mod decryption_tables;
mod encryption_tables;
mod field;
mod key_expansion;
mod rounds;
mod s_box;
mod state;

pub use aes_key::AesKey;
