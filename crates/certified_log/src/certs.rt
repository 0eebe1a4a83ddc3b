//! Certificates of all committed windows.
ghost use Rattle.std.specs.Prelude.{◌≡◌, ◌<◌, IfOk, IfSome};
ghost use Rattle.certified_log.specs.Shown.{AreCertificates, IsOfWindow, IsShort};
ghost use Rattle.certified_log.specs.Texts.{IsCertificateOf};
ghost use Rattle.window_model.specs.Windows.{window_count};

use crate::looks::{answer_in, is_set};
use crate::short::is_short;
use core_state::CoreState;
use detector_graph::Decoded;
use dual_certificate::Cert;
use std::alloc::{AllocError, Global};
use window_decode::certificate;

/// For each window, once it is committed, numbers that show its set least, if the search finds
/// some.
pub(crate) fn certificates(alloc: Global, core: &CoreState) -> Result<Vec<Option<Cert>>, AllocError>
    ensures { IfOk result (λ certs. AreCertificates core.now certs.items) }
{
    let mut certs = Vec::new(alloc);
    for window in 0..core.setting().window_count() {
        certs.push(certificate_of(alloc, core, window)?)?;
    }
    Ok(certs)
}

/// Of one window.
fn certificate_of(alloc: Global, core: &CoreState, window: u32) -> Result<Option<Cert>, AllocError>
    requires { window < window_count core.now.task.plan }
    ensures { IfOk result (λ found. IsOfWindow core.now window found) }
{
    match answer_in(core, window) {
        Some(decoded) => short_of(alloc, decoded),
        None => Ok(None),
    }
}

/// Of one answer, where it is short enough for its lines.
fn short_of(alloc: Global, decoded: &Decoded) -> Result<Option<Cert>, AllocError>
    ensures { IfOk result (IsCertificateOf decoded.now.problem decoded.now.set) }
{
    decoded.is_least();
    is_set(&decoded.set);
    match certificate(alloc, &decoded.problem, &decoded.set)? {
        Some(cert) => Ok(kept_short(cert)),
        None => Ok(None),
    }
}

/// The certificate, where it is short enough for its lines.
fn kept_short(cert: Cert) -> Option<Cert>
    ensures { IfSome result (λ c. (c ≡ cert) × IsShort c) }
{
    if is_short(&cert) { Some(cert) } else { None }
}
