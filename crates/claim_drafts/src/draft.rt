//! A claim whose bits are to be written.
ghost use Rattle.std.specs.Prelude.{◌≡◌, ◌<◌, IfOk, length, map};
ghost use Rattle.claim_drafts.specs.Drafts.{IsDraftOf};
ghost use Rattle.window_model.specs.Windows.{places, window_at, window_count};
ghost use Rattle.window_setting.specs.Defects.{AreClaimDefects};

use core_store::Claim;
use detector_graph::{Bits, Part, Problem};
use std::alloc::{AllocError, Global};
use std::marker::Model;
use std::sync::Arc;
use window_model::Origin;
use window_setting::Setting;

/// A claim of a window whose origins and bits are to be written, with room for its problem.
#[derive(Drop)]
pub struct Draft {
    pub claim: Claim,
    part: Arc<Part>,
    defects: Bits,
}

impl Model for Draft {
    ghost use Rattle.std.specs.Arc.{arc_value};
    ghost use Rattle.claim_drafts.specs.Drafts.{Draft};

    ghost Value = { Draft };

    ghost view = { λ d. record {
      claim = d.claim;
      part = arc_value d.part;
      defects = d.defects;
    } };
}

impl Draft {
    /// A draft of a window's claim. All its origins are guesses, and no bit is true.
    pub fn new(alloc: Global, setting: &Setting, window: u32) -> Result<Draft, AllocError>
        requires { window < window_count setting.now.plan }
        ensures { IfOk result (IsDraftOf setting.now window) }
    {
        let claim = blank_claim(alloc, setting, window)?;
        let part = setting.part(window)?;
        let defects = blank_sheet(alloc, setting, window)?;
        Ok(Draft {
            claim,
            part,
            defects,
        })
    }

    /// The claim as it is written, and its problem: the window's part with the defects that the
    /// claim's bits leave it of these values of the detectors.
    pub fn finish(self, setting: &Setting, values: &Bits) -> (Claim, Problem)
        requires window { self.claim.window < window_count setting.now.plan }
        requires draft { IsDraftOf setting.now self.claim.window self }
        requires values { length values.now ≡ setting.now.graph.vertices }
        ensures claim { result.0 ≡ self.claim }
        ensures part { (result.1).part ≡ self.part }
        ensures defects { AreClaimDefects setting.now self.claim.window values.now self.claim.bits
            (result.1).defects }
    {
        let Draft {
            claim,
            part,
            mut defects,
        } = self;
        setting.write_defects(claim.window, values, &claim.bits, &mut defects);
        (claim, Problem { part, defects })
    }
}

/// A claim of a window of which all is to be written.
fn blank_claim(alloc: Global, setting: &Setting, window: u32) -> Result<Claim, AllocError>
    requires { window < window_count setting.now.plan }
    ensures window { IfOk result (λ claim. claim.window ≡ window) }
    ensures origins { IfOk result (λ claim. length claim.origins
        ≡ length (window_at setting.now.plan window).deps) }
    ensures bits { IfOk result (λ claim. map length claim.bits
        ≡ map (λ x. length (places setting.now.graph setting.now.plan x window))
        (window_at setting.now.plan window).deps) }
{
    let count = setting.deps(window).len();
    let origins = vec![in alloc; Origin::Guess; count]?;
    let bits = blank_bits(alloc, setting, window)?;
    Ok(Claim {
        window,
        origins,
        bits,
    })
}

/// For each dependency of a window a bit for each of the places that the two share.
fn blank_bits(alloc: Global, setting: &Setting, window: u32) -> Result<Vec<Bits>, AllocError>
    requires { window < window_count setting.now.plan }
    ensures { IfOk result (λ bits. map length bits.items
        ≡ map (λ x. length (places setting.now.graph setting.now.plan x window))
        (window_at setting.now.plan window).deps) }
{
    let dependencies = setting.deps(window);
    let mut bits = Vec::with_capacity(alloc, dependencies.len())?;
    for at in 0..dependencies.len() {
        let places = setting.places(dependencies[at], window);
        bits.push(Bits::zeros(alloc, places.len() as u32)?)?;
    }
    Ok(bits)
}

/// A bit for each of a window's detectors.
pub(crate) fn blank_sheet(alloc: Global, setting: &Setting, window: u32) -> Result<Bits, AllocError>
    requires { window < window_count setting.now.plan }
    ensures { IfOk result (λ sheet. length sheet
        ≡ length (window_at setting.now.plan window).detectors) }
{
    let part = setting.part_of(window);
    part.is_part();
    let sheet = Bits::zeros(alloc, part.detectors.len() as u32)?;
    Ok(sheet)
}
