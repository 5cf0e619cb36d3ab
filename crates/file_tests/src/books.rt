//! Books of contexts at their starts.

use checkpoint::starts;
use checkpoint_file::device::Watched;
use checkpoint_file::write;
use hart_step::Environment;
use origin_set::Origin;
use sha2::{Digest, Sha256};
use std::alloc::Global;
use std::process::Abort;
use std::sync::Arc;

/// The origin of no program.
fn empty(rt: &impl Abort, alloc: Global) -> Arc<Origin> {
    let programs = [None, None, None, None, None, None, None, None];
    let origin = Origin::new(programs, Environment::One).expect(rt, "an origin");
    Arc::new(alloc, origin).expect(rt, "memory")
}

/// The book of an origin's starts.
fn opening(rt: &impl Abort, alloc: Global, origin: &Arc<Origin>) -> Vec<u8> {
    let marks = starts(alloc, origin).expect(rt, "memory");
    let name = String::from_str(alloc, "book").expect(rt, "memory");
    let mut book = Watched::new(Vec::new(alloc), name);
    write(&mut book, &marks).expect(rt, "a text");
    drop(marks);
    book.into_inner()
}

#[test]
fn book_of_no_program(rt: HostRuntime) {
    let alloc = rt.alloc();
    let origin = empty(&rt, alloc);
    let text = opening(&rt, alloc, &origin);
    drop(origin);
    assert_eq!(rt; text.len(), 5603);
    let digest = hex::encode(alloc, Sha256::digest(&text)).expect(&rt, "memory");
    assert!(rt;
        digest.as_str() == "69f3ee7aa7c5b347bc233131aedaf928b0a30709d633d624dab13343ca790d6d"
    );
}
