mod calls;
mod devices;
mod shown;

use mst_io::Outcome;

fn counts(refused: u64, differing: u64) -> Outcome {
    Outcome {
        refused,
        memory: 0,
        differing,
    }
}
