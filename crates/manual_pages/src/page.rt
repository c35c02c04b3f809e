//! A page of the manual.
ghost use Rattle.std.specs.Prelude.{◌≡◌, [], find, map, option_copied, option_map, unwrap_or};
ghost use Rattle.std.specs.Str.{bytes_eq};
ghost use Rattle.command_line.specs.FormatOptions.{text_of};
ghost use Rattle.program_io.specs.Counted.{Writes};
ghost use Rattle.manual_pages.specs.Pages.{image_pages, page_in, page_of, page_record, stack_pages};

use crate::pages::{IMAGE_PAGES, STACK_PAGES};
use program_io::{Counted, WriteFault};
use std::io::Write;

/// A command's name, or no letter for the page of the program; and what is printed.
#[derive(Clone, Copy)]
pub struct Page {
    pub name: &'static str,
    pub text: &'static str,
}

/// The page of that command, or of the program if none is named.
pub fn page_of(command: Option<&str>) -> Option<Page>
    ensures { option_map page_record result ≡ page_of (unwrap_or (text_of command.entry) []) }
{
    let wanted = command.unwrap_or("").as_bytes();
    match stack_page(wanted) {
        Some(page) => Some(*page),
        None => image_page(wanted).copied(),
    }
}

fn stack_page(wanted: &[u8]) -> Option<&'static Page>
    ensures { option_map page_record (option_copied result) ≡ page_in stack_pages wanted.now }
{
    page_in(&STACK_PAGES, wanted)
}

fn image_page(wanted: &[u8]) -> Option<&'static Page>
    ensures { option_map page_record (option_copied result) ≡ page_in image_pages wanted.now }
{
    page_in(&IMAGE_PAGES, wanted)
}

// The page of that name among these.
fn page_in<'a>(pages: &'a [Page], wanted: &[u8]) -> Option<&'a Page>
    ensures { option_map page_record (option_copied result) ≡ page_in (map page_record pages.now) wanted.now }
{
    find_page(pages, wanted)
}

fn find_page<'a>(pages: &'a [Page], wanted: &[u8]) -> Option<&'a Page>
    ensures { option_copied result ≡ find (λ page. bytes_eq page.name.now wanted.now) pages.now }
{
    pages.iter().find(|page| page.name.as_bytes() == wanted)
}

/// Prints a page.
///
/// # Errors
///
/// `WriteFault` if the writer failed.
pub fn print_page<W: Write>(writer: &mut Counted<W>, page: Page) -> Result<(), WriteFault>
    ensures { Writes W.contents writer.old writer.new page.text.now result }
{
    writer.put(page.text.as_bytes())
}
