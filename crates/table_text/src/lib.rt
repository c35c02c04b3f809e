//! Reading device-mapper tables and stacks from text, and printing tables.
#![tactic(auto)]

mod crypt_arguments;
mod cut;
mod digits;
mod line;
mod line_fault;
mod numbers;
mod option_values;
mod option_words;
mod parity_arguments;
mod print;
mod print_crypt;
mod print_digits;
mod print_options;
mod print_unstriped;
mod print_verity;
mod signature_arguments;
mod stack_text;
mod table_text;
mod target;
mod unstriped_arguments;
mod verity_arguments;

pub use cut::{Words, white_len, word_len};
pub use numbers::number;
pub use print::{print_line, print_table};
pub use stack_text::parse_stack;
pub use table_text::parse_table;
