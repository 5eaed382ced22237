//! When a page is full.

use pim_base::Reply;
use pim_page::{FULL, Page};
use std::test::Fail;

/// Adds lines of ten bytes to a page up to the first by which it is full, and returns their number.
fn lines_of_a_full_page(page: &mut Page) -> Result<usize, Fail> {
    for count in 0..FULL {
        if page.is_full() {
            return Ok(count);
        }
        page.reply_line(1, &Reply::Granted)?;
    }
    Ok(FULL)
}

#[test]
fn page_is_full_with_64_kib_and_empty_when_cleared(rt: HostRuntime) -> Result<(), Fail> {
    let mut page = Page::new(rt.alloc())?;
    // 6,553 lines have 65,530 bytes, and 65,536 are a full page.
    let count = lines_of_a_full_page(&mut page)?;
    let filled = page.as_slice().len();
    page.clear();
    let is_cleared = page.as_slice().is_empty() && !page.is_full();
    drop(page);
    assert!(rt; count == 6_554 && filled == 65_540 && is_cleared);
    Ok(())
}
