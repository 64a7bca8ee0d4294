// Names of heaps.
use std::marker::Brand;

/// Names one heap: its table of shared words, how many logs and mutators it has, whether its far side is honest, and whether it has copiers. The heap's lock, its
/// mutators and its copiers carry one name, so that they are of one heap. Whoever begins a heap is a function over the name, called with `std::marker::Brand`, and
/// writes the name once: `Heap::<K, _>::new` or `with_copiers`.
pub trait HeapName {
    ghost use Rattle.far_heap.specs.HeapId.{HeapId};

    ghost heap: { HeapId };
}

impl HeapName for Brand {
    ghost use Rattle.far_heap.specs.HeapId.{no_heap};

    ghost heap = { no_heap };
}
