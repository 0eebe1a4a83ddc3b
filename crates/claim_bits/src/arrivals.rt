//! What a guess may rest on.
ghost use Rattle.std.specs.Prelude.{◌≡◌, ◌<◌, ◌≤◌, ◌&&◌, ◌==◌, ℕ, All, Some, false, true, length, nat_lt, slice_get, slice_index_or};
ghost use Rattle.claim_bits.specs.Seen.{HasSeen, has_defect, is_defect, is_linked, joins, view_of};
ghost use Rattle.graph_model.specs.Graph.{IsEdge, incident_edges, is_in};
ghost use Rattle.window_model.specs.Guesses.{IsGuessed};
ghost use Rattle.window_model.specs.Speculation.{Machine};
ghost use Rattle.window_model.specs.Windows.{home_of, places, slot_of, window_at, window_count};
ghost use Rattle.window_model.specs.declared.Origin.TheVariants.{Guess};
ghost use Rattle.window_setting.specs.Settings.{IsSetting};

use detector_graph::{Bits, Edge};
use predictor::Predictor;
use std::marker::Model;
use window_model::GuessView;
use window_setting::Setting;

/// The values of a setting's detectors, of which those of the first slots have arrived.
#[derive(Drop)]
pub struct Arrivals<'a> {
    setting: &'a Setting,
    arrived: u32,
    values: &'a Bits,
}

impl<'a> Model for Arrivals<'a> {
    ghost use Rattle.std.specs.Prelude.{◌≡◌, length};
    ghost use Rattle.claim_bits.specs.Seen.{Seen};

    ghost Value = { Seen };

    ghost view = { λ s. record {
      task = s.setting.now;
      arrived = s.arrived;
      values = s.values.now;
    } };

    ghost invariant = { λ s. length s.values.now ≡ s.setting.now.graph.vertices };
}

impl<'a> Arrivals<'a> {
    /// So many slots have arrived, and these are the values of the detectors: those of other slots
    /// don't count.
    pub fn new(setting: &'a Setting, arrived: u32, values: &'a Bits) -> Arrivals<'a>
        requires { length values.now ≡ setting.now.graph.vertices }
        ensures { result ≡ record { task = setting.now; arrived = arrived; values = values.now } }
    {
        Arrivals {
            setting,
            arrived,
            values,
        }
    }

    /// Writes a guess for each place that a window, whose last slot has arrived, shares with a
    /// dependency. It costs time in proportion to the edges at the places.
    pub fn write_guesses<Q: Predictor>(
        &self,
        predictor: &Q,
        source: u32,
        window: u32,
        into: &mut Bits,
    )
        requires window { window < window_count self.now.task.plan }
        requires source { is_in (window_at self.now.task.plan window).deps source ≡ true }
        requires last { (window_at self.now.task.plan window).last < self.now.arrived }
        requires into { length into.old ≡ length (places self.now.task.graph self.now.task.plan
            source window) }
        ensures len { length into.new ≡ length into.old }
        ensures guessed { (m : Machine) → HasSeen m self.now →
            IsGuessed (Q.may_guess predictor.now) self.now.task m window
            (record { source = source; origin = Guess; bits = into.new }) }
    {
        self.is_setting();
        let places = self.places(source, window);
        for at in 0..into.len() {
            let view = self.view(source, window, places[at as usize]);
            into.set(at, predictor.guess(&view));
        }
    }

    /// What a guess of the window about the source rests on, at a detector.
    fn view(&self, source: u32, window: u32, place: u32) -> GuessView
        requires source { source < window_count self.now.task.plan }
        requires place { place < self.now.task.graph.vertices }
        ensures { result ≡ view_of self.now source window place }
    {
        GuessView {
            source,
            target: window,
            place,
            value: self.value(place),
            linked: self.is_linked(source, place),
        }
    }

    /// Whether an edge that the source owns joins the detector with a defect of the source's cell.
    fn is_linked(&self, source: u32, detector: u32) -> bool
        requires source { source < window_count self.now.task.plan }
        requires detector { detector < self.now.task.graph.vertices }
        ensures { result ≡ is_linked self.now source detector }
    {
        for edge in self.incident(detector) {
            if self.joins(source, *edge) {
                return true;
            }
        }
        false
    }

    /// Whether the source owns the edge, and some end of it is a defect of the source's cell.
    fn joins(&self, source: u32, edge: u32) -> bool
        requires source { source < window_count self.now.task.plan }
        requires edge { edge < length self.now.task.graph.edges }
        ensures { result ≡ joins self.now source edge }
    {
        self.owns(source, edge) && self.has_defect(source, self.edge(edge))
    }

    /// Whether some end of the edge is a defect of the source's cell.
    fn has_defect(&self, source: u32, edge: &Edge) -> bool
        requires { IsEdge self.now.task.graph.vertices edge.now }
        ensures { result ≡ has_defect self.now source edge.now }
    {
        if self.is_defect(source, edge.first) {
            return true;
        }
        match edge.second {
            Some(second) => self.is_defect(source, second),
            None => false,
        }
    }

    /// Whether the detector is a defect of the source's cell: it has arrived there, and its value
    /// is 1.
    fn is_defect(&self, source: u32, detector: u32) -> bool
        requires { detector < self.now.task.graph.vertices }
        ensures { result ≡ is_defect self.now source detector }
    {
        self.is_at(source, detector) && self.value(detector)
    }

    // ---- what is lent

    fn is_setting(&self)
        ensures { IsSetting self.now.task }
    {
        self.setting.is_setting();
    }

    fn places(&self, source: u32, window: u32) -> &[u32]
        requires window { window < window_count self.now.task.plan }
        requires source { is_in (window_at self.now.task.plan window).deps source ≡ true }
        ensures value { result.now ≡ places self.now.task.graph self.now.task.plan source window }
        ensures below { All (λ v. v < self.now.task.graph.vertices) result.now }
    {
        self.setting.places(source, window)
    }

    fn incident(&self, detector: u32) -> &[u32]
        requires { detector < self.now.task.graph.vertices }
        ensures { result.now ≡ incident_edges self.now.task.graph detector }
    {
        self.setting.graph().incident(detector)
    }

    fn edge(&self, number: u32) -> &Edge
        requires { number < length self.now.task.graph.edges }
        ensures value { slice_get self.now.task.graph.edges number ≡ Some result.now }
        ensures fits { IsEdge self.now.task.graph.vertices result.now }
    {
        self.setting.graph().edge(number)
    }

    /// Whether the window owns the edge: a binary search.
    fn owns(&self, window: u32, edge: u32) -> bool
        requires { window < window_count self.now.task.plan }
        ensures { result ≡ is_in (window_at self.now.task.plan window).owned edge }
    {
        self.setting.owned(window).binary_search(&edge).is_ok()
    }

    /// Whether the detector is in the window's cell and has arrived.
    fn is_at(&self, window: u32, detector: u32) -> bool
        requires { detector < self.now.task.graph.vertices }
        ensures { result ≡ (home_of self.now.task.plan.homes detector == window
            && nat_lt (slot_of self.now.task.tags detector) self.now.arrived) }
    {
        self.setting.home(detector) == window && self.setting.slot(detector) < self.arrived
    }

    fn value(&self, detector: u32) -> bool
        requires { detector < self.now.task.graph.vertices }
        ensures { result ≡ slice_index_or self.now.values detector false }
    {
        self.values.get(detector)
    }
}
