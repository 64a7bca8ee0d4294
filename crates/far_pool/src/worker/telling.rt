//! What a worker has, in all.

ghost use Rattle.std.specs.Prelude.{◌≡◌, ◌+◌, length};
ghost use Rattle.far_pool.specs.Pool.{count_in};
ghost use Rattle.far_pool.specs.Statistics.{IsWorst};

use crate::maker::MakeDevice;
use crate::statistics::WorkerStatistics;
use crate::worker::Worker;
use far_device::Device;

impl<D: Device + Drop, M: MakeDevice<D> + Drop> Worker<D, M> {
    /// How many heaps it has, up to 2,097,152.
    pub fn heaps(&self) -> u32
        ensures { result ≡ length self.now.shelves }
    {
        self.parts.shelves.len() as u32
    }

    /// What the worker has, and what it has done since it was made. It looks at each heap.
    pub fn statistics(&self) -> WorkerStatistics
        ensures objects { result.near + result.far ≡ count_in self.now }
        ensures heaps { result.heaps ≡ length self.now.shelves }
        ensures worst { IsWorst result.heaps result.worst result.worst_faults }
    {
        let mut all = WorkerStatistics::none(self.parts.accesses);
        for number in 0..self.parts.shelves.len() {
            all.add(&self.parts.shelves[number].statistics());
        }
        all
    }
}
