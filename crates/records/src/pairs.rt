// The record of a pair: its two regions, each with its own map.
ghost use Rattle.records.specs.PairRecords.{pair_reads, pair_bytes, PairFits, pair_undoing};

use crate::recorded::{Recorded, Written};
use buffers::Output;
use fields::RecordFault;
use supplied::Pair;

impl<F: Recorded, G: Recorded> Recorded for Pair<F, G> {
    ghost reads = { pair_reads F.Recorded.reads G.Recorded.reads };

    fn read(bytes: &[u8]) -> Result<(Pair<F, G>, &[u8]), RecordFault> {
        let (first, rest) = F::read(bytes)?;
        let (second, behind) = G::read(rest)?;
        Ok((Pair { first, second }, behind))
    }
}

impl<F: Written, G: Written> Written for Pair<F, G> {
    ghost writes = { pair_bytes F.Written.writes G.Written.writes };

    ghost fits = { PairFits F.Written.fits G.Written.fits };

    ghost undoing = { pair_undoing F.Written.undoing G.Written.undoing };

    fn write(self, out: &mut Output) {
        self.first.write(out);
        self.second.write(out);
    }
}
