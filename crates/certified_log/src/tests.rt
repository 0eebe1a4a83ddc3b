use crate::short::is_short;
use crate::written::write_certificate;
use dual_certificate::Cert;
use std::alloc::{AllocError, Global};
use std::test::*;

/// Three members, of which two have a set.
fn cert(alloc: Global, first: i64) -> Result<Cert, AllocError> {
    let vertex = vec![in alloc; first, -1, 0]?;
    let mut sets = Vec::new(alloc);
    sets.push((vec![in alloc; 0, 1, 2]?, 3))?;
    Ok(Cert { vertex, sets })
}

/// The lines of a certificate, and whether its numbers are short.
fn told(alloc: Global, first: i64) -> Result<(String, bool), AllocError> {
    let cert = cert(alloc, first)?;
    let mut text = String::new(alloc);
    let written = write_certificate(&mut text, &cert);
    let short = is_short(&cert);
    drop(cert);
    written?;
    Ok((text, short))
}

#[test]
fn a_certificate_has_its_numbers_and_a_line_for_each_set(rt: HostRuntime) -> Result<(), Fail> {
    let (text, short) = told(rt.alloc(), 2)?;
    assert_eq!(rt;
        (text.as_str(), short),
        ("vertex 2 -1 0\nset 3 0 1 2\n", true)
    );
    Ok(())
}

#[test]
fn a_number_of_19_digits_is_long(rt: HostRuntime) -> Result<(), Fail> {
    let (_, short) = told(rt.alloc(), 1_000_000_000_000_000_000)?;
    assert!(rt; !short);
    Ok(())
}

/// Whether a certificate of one member is short that has so many sets.
fn is_short_with(alloc: Global, count: u32) -> Result<bool, AllocError> {
    let vertex = vec![in alloc; 1]?;
    let mut sets = Vec::new(alloc);
    for _set in 0..count {
        sets.push((vec![in alloc; 0]?, 1))?;
    }
    let cert = Cert { vertex, sets };
    Ok(is_short(&cert))
}

#[test]
fn more_sets_than_members_are_too_many(rt: HostRuntime) -> Result<(), Fail> {
    let one = is_short_with(rt.alloc(), 1)?;
    let two = is_short_with(rt.alloc(), 2)?;
    assert_eq!(rt; (one, two), (true, false));
    Ok(())
}
