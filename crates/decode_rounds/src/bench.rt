//! Those who meet at a table: workers, and one who reads.
use decode_workers::{Gate, Worker, work};
use predictor::Predictor;
use run_rounds::SlotReader;
use std::alloc::Global;
use std::sync::Wait;
use std::thread::{Threads, for_each_mut};
use window_decode::Exact;
use window_table::{NamesSetting, Reader, Table};

/// A table, with what all who work at it are given.
#[derive(Drop)]
pub(crate) struct Bench<'a, R: Wait, Q: Predictor, Z: NamesSetting, G: Gate> {
    pub(crate) rt: &'a R,
    pub(crate) alloc: Global,
    pub(crate) table: &'a Table<Q, Z>,
    pub(crate) gate: &'a G,
}

/// What the one who reads has: the rows, what it brought and was told, and a hand that decodes
/// while it waits.
#[derive(Drop)]
pub(crate) struct Seat<'a, Z: NamesSetting> {
    pub(crate) rows: SlotReader<'a>,
    pub(crate) readings: Reader<Z>,
    pub(crate) helper: Worker<Exact>,
}

/// Each of the workers works until the table is closed, in a thread of its own.
pub(crate) fn work_all<
    R: Threads + Wait + Sync,
    Q: Predictor + Sync,
    Z: NamesSetting + Send + Sync,
    G: Gate + Sync,
>(bench: &Bench<'_, R, Q, Z, G>, workers: &mut [Worker<Exact>]) {
    for_each_mut(
        bench.rt,
        workers,
        8,
        &|_, worker| {
            worker.end = work(bench.rt, bench.table, bench.gate, worker);
        },
    );
}
