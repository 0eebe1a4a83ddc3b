//! Tickets by their numbers.
ghost use Rattle.std.specs.Prelude.{◌≡◌, ◌<◌, ◌^◌, IfOk, None, Some, false, length, map, option_map, replicate, slice_get, slice_index, slice_index_or};
ghost use Rattle.core_store.specs.Tickets.{ClaimBits, answer_at, no_claims, with_answer, with_claim, with_closed};

use crate::Claim;
use detector_graph::Decoded;
use std::alloc::{AllocError, Global};
use std::marker::Model;

/// For each ticket its claim, its answer once it has returned, and whether it is closed. There is
/// room for so many tickets as were announced, so no call but the first takes memory.
pub struct Tickets {
    claims: Vec<Claim>,
    answers: Vec<Option<Decoded>>,
    closed: Vec<bool>,
}

impl Drop for Tickets {
    fn drop(self) {
        let Tickets {
            claims: _,
            answers: _,
            closed: _,
        } = self;
    }
}

impl Model for Tickets {
    ghost use Rattle.std.specs.Prelude.{length, vec_capacity};
    ghost use Rattle.core_store.specs.Tickets.{HasRoom, TicketTable};

    ghost Value = { TicketTable };

    ghost view = { λ t. record {
      claims = t.claims.items;
      answers = t.answers.items;
      closed = t.closed.items;
    } };

    ghost invariant = { λ t. HasRoom (length t.claims.items) (length t.answers.items)
        (length t.closed.items) (vec_capacity t.claims) };
}

impl Tickets {
    /// No tickets, and room for so many.
    pub fn new(alloc: Global, room: u32) -> Result<Tickets, AllocError>
        ensures { IfOk result (λ t. t ≡ no_claims room) }
    {
        let claims = Vec::with_capacity(alloc, room as usize)?;
        let answers = no_answers(alloc, room)?;
        let closed = vec![in alloc; false; room as usize]?;
        Ok(Tickets {
            claims,
            answers,
            closed,
        })
    }

    /// Keeps the claim of the next ticket.
    pub fn take(&mut self, claim: Claim)
        requires { length self.old.claims < length self.old.answers }
        ensures { self.new ≡ with_claim self.old claim }
    {
        let _ = self.claims.push(claim);
    }

    /// Keeps the answer of a ticket, which is closed by it.
    pub fn answer(&mut self, ticket: u32, decoded: Decoded)
        requires { ticket < length self.old.answers }
        ensures { self.new ≡ with_answer self.old ticket decoded }
    {
        self.answers[ticket as usize] = Some(decoded);
        self.closed[ticket as usize] = true;
    }

    /// Closes a ticket.
    pub fn close(&mut self, ticket: u32)
        requires { ticket < length self.old.answers }
        ensures { self.new ≡ with_closed self.old ticket }
    {
        self.closed[ticket as usize] = true;
    }

    /// How many tickets were taken.
    pub fn taken(&self) -> u32
        requires { length self.now.answers < 2 ^ 32 }
        ensures { result ≡ length self.now.claims }
    {
        self.claims.len() as u32
    }

    /// The claim of a ticket.
    pub fn claim(&self, ticket: u32) -> &Claim
        requires { ticket < length self.now.claims }
        ensures { slice_get self.now.claims ticket ≡ Some result.now }
    {
        &self.claims[ticket as usize]
    }

    /// The window of a ticket.
    pub fn window(&self, ticket: u32) -> u32
        requires { ticket < length self.now.claims }
        ensures { result ≡ slice_index (map (λ (claim : ClaimBits). claim.window) self.now.claims)
            ticket }
    {
        let claim = &self.claims[ticket as usize];
        claim.window
    }

    /// The answer of a ticket, once it has returned.
    pub fn answer_of(&self, ticket: u32) -> Option<&Decoded>
        requires { ticket < length self.now.answers }
        ensures { option_map (λ d. d.now) result ≡ answer_at self.now ticket }
    {
        self.answers[ticket as usize].as_ref()
    }

    /// Whether a ticket is closed.
    pub fn is_closed(&self, ticket: u32) -> bool
        requires { ticket < length self.now.answers }
        ensures { result ≡ slice_index_or self.now.closed ticket false }
    {
        self.closed[ticket as usize]
    }
}

fn no_answers(alloc: Global, room: u32) -> Result<Vec<Option<Decoded>>, AllocError>
    ensures { IfOk result (λ a. a.items ≡ replicate room None) }
{
    let mut answers = Vec::with_capacity(alloc, room as usize)?;
    for _place in 0..room {
        answers.push(None)?;
    }
    Ok(answers)
}
