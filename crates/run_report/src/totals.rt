//! How many windows are committed, and how many edges with what weight.
ghost use Rattle.std.specs.Prelude.{◌≡◌, ◌≤◌, ◌<◌, ◌*◌, All, IfSome, count_by, if◌then◌else◌, is_some, length, option_map, sum_by};
ghost use Rattle.std.specs.List.{range_with_len};
ghost use Rattle.graph_model.specs.Graph.{weight_at, weight_of};
ghost use Rattle.graph_model.specs.Limits.{most_edges, most_weight};
ghost use Rattle.run_report.specs.Reports.{decoder_in};
ghost use Rattle.window_model.specs.Decoder.{committed_edges, kept_of};
ghost use Rattle.window_model.specs.Windows.{window_count};

use core_state::CoreState;
use detector_graph::EdgeSet;

/// How many windows are committed, and how many edges with what weight.
#[derive(Clone, Copy)]
pub(crate) struct Totals {
    pub(crate) windows: u32,
    pub(crate) edges: u64,
    pub(crate) weight: u64,
}

/// What all windows commit.
pub(crate) fn committed(core: &CoreState) -> Totals
    ensures windows { result.windows ≡ count_by (λ w. is_some ((decoder_in core.now).kept w))
        (range_with_len 0 (window_count core.now.task.plan)) }
    ensures edges { result.edges ≡ length (committed_edges core.now.task (decoder_in core.now)) }
    ensures weight { result.weight ≡ sum_by (weight_at core.now.task.graph)
        (committed_edges core.now.task (decoder_in core.now)) }
{
    core.is_state();
    let mut all = Totals {
        windows: 0,
        edges: 0,
        weight: 0,
    };
    for window in 0..core.setting().window_count() {
        let one = window_totals(core, window);
        all.windows += one.windows;
        all.edges += one.edges;
        all.weight += one.weight;
    }
    all
}

/// What one window commits, which is nothing before it is committed.
fn window_totals(core: &CoreState, window: u32) -> Totals
    requires { window < window_count core.now.task.plan }
    ensures windows { result.windows ≡ (if is_some ((decoder_in core.now).kept window)
        then 1 else 0) }
    ensures edges { result.edges ≡ length (kept_of (decoder_in core.now) window) }
    ensures weight { result.weight ≡ weight_of core.now.task.graph
        (kept_of (decoder_in core.now) window) }
    ensures few { result.edges ≤ most_edges }
    ensures light { result.weight ≤ most_edges * most_weight }
{
    let setting = core.setting();
    setting.graph.is_graph();
    match committed_set(core, window) {
        Some(kept) => Totals {
            windows: 1,
            edges: kept.as_slice().len() as u64,
            weight: setting.graph.weight_of(kept),
        },
        None => Totals {
            windows: 0,
            edges: 0,
            weight: 0,
        },
    }
}

/// The edges that a window commits, once it is committed.
fn committed_set(core: &CoreState, window: u32) -> Option<&EdgeSet>
    requires { window < window_count core.now.task.plan }
    ensures set { option_map (λ s. s.now) result ≡ (decoder_in core.now).kept window }
    ensures edges { IfSome result (λ s. All (λ e. e < length core.now.task.graph.edges) s.now) }
{
    if !core.is_done(window) {
        return None;
    }
    match core.standing(window) {
        Some(ticket) => Some(core.kept_of(window, ticket)),
        None => None,
    }
}
