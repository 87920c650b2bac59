//! Books: places, replies and refusals by hand.
use lat_core::{ChangeFault, Edition, Reply, Request};
use lat_history::Book;
use std::test::Fail;

#[test]
fn a_full_book(rt: HostRuntime) -> Result<(), Fail> {
    let mut book = Book::open(rt.alloc(), Edition::One, 1)?;
    let played = book.play(1, &Request::Sync)?;
    assert!(rt; matches!(&played.placed.reply, Reply::Synced));
    assert_eq!(rt; played.placed.place, 0);
    assert_eq!(rt; played.view.fields(), 11);
    assert_eq!(rt; played.view.maps(), 11);
    let refused = book.play(1, &Request::Sync);
    assert!(rt; matches!(&refused, Err(ChangeFault::HistoryFull(1))));
    assert_eq!(rt; book.length(), 1);
    assert_eq!(rt; book.room(), 1);
    assert_eq!(rt; book.lattice().fields(), 11);
    Ok(())
}
