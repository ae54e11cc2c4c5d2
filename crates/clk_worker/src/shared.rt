//! What the threads of a run use together.
use clk_latch::Latch;
use clk_machine::Machine;
use clk_num::List;
use clk_ticket::TicketTable;
use clk_words::Words;

/// What the threads of a run use together, each by its own seats.
#[derive(Drop)]
pub struct Shared {
    /// The clock words, one for each CPU.
    pub words: Words,
    /// The latch of each CPU.
    pub epochs: List<Latch>,
    /// What is added to the counter of each CPU, in cycles.
    pub adjusts: List<i64>,
    pub tickets: TicketTable,
    pub machine: Machine,
}
