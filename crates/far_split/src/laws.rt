//! What the law of a mutator's replies has to do with that of the plain program, and what they and the book's tell in other words.

ghost use Rattle.far_split.specs.BookSaid.{BookIsToldSo, RoundsAreRefusedSo, SumsAreTold};
ghost use Rattle.far_split.specs.CellsSaid.{MutatorsAreToldSo, NoneLacksMemory, WordsAreOfObjects};
ghost use Rattle.far_split.specs.FaultRows.{FaultsAreInOrder};
ghost use Rattle.far_split.specs.Here.{AloneHereIsAlone, AloneIsAloneHere, AloneOnIsAloneHere, HonestIsAllowed};
ghost use Rattle.far_split.specs.Served.{NeverDamaged, ReadsAreAsLong, RefusalsAreLawful};

/// Over an honest far side the law of a mutator's replies beside others is that of the plain program, and no line is refused 11: what the one allows of its own lines without damaged
/// bytes the other does, and the other way round. Over a far side that may lie the plain program's law is allowed too, and all that is allowed over an honest one; a refusal there is one of
/// the plain program's law, and a read gives as many bytes as it asks for. What is allowed on a heap, of which replies tell, is allowed by the first.
pub fn mutators_are_alone()
    ensures allowed { AloneIsAloneHere }
    ensures alone { AloneHereIsAlone }
    ensures whole { NeverDamaged }
    ensures on_heap { AloneOnIsAloneHere }
    ensures lying { HonestIsAllowed }
    ensures lawful { RefusalsAreLawful }
    ensures as_long { ReadsAreAsLong }
{}

/// What a mutator's replies tell of cells, by the numbers of refusals and by what a cell's word says. A new object has the lowest of the mutator's 256 cells that was free; it is refused 3
/// where none was, and 2 where one was, and the object passes the end of the open log, and no two logs were free. An object isn't brought, and that is refused 2, where its cell said far
/// and there was as little room, or near with EVAC and MOVE, and it passes that end too and no log was free; 10 where it said far, and the one read of it failed; 11 where that
/// gave another number of bytes, over a
/// far side that isn't honest. A word that 14 tells is far, or near with EVAC or MOVE, of an object as long as the mutator knows. No line is refused 1.
pub fn mutators_are_told_so()
    ensures cells { MutatorsAreToldSo }
    ensures words { WordsAreOfObjects }
    ensures memory { NoneLacksMemory }
{}

/// Which fault is told where threads ended in several ways, in numerals: the no of a gate, though a thread before it was refused memory; of several the least mutator's, the book's last;
/// and memory where no gate said no.
pub fn faults_are_in_order()
    ensures { FaultsAreInOrder }
{}

/// What the book's lines are told, by what is asked and told alone: each is told one thing. Logs are told by number, from 0 on, or the one that is asked for, and each line of a
/// log makes 4,096 bytes; one log is refused 8 exactly where the heap has none of its number. An audit tells how many cells said near and how many said far, each pointer counted
/// once, and the live bytes of all logs, of one moment; it is refused 1 alone. A round is told `none` only where it was to choose none, or no log was sealed. Else it takes as
/// many sealed logs as it was to choose, or all: the oldest, or some of which none has more live bytes than a sealed log that is left. It is told `done` only after a turn that
/// found objects leaving, gave back all logs that the round had left, and left none running: its four counts are the sums of what its turns counted, or 2^64 - 1 where a sum is
/// greater, and a log was given back. At its limit as many turns are told as were to be made, of which one may stand for several, with the phase in which the last one left the
/// round, which found it there or in the phase before; where none was to be made, marking. A round that is refused tells no counts where its refusal is 12 or 13: 12 tells that
/// at some moment a round ran, or that its own wasn't running, 13 that no epoch was left; it tells counts where that is 1 or 10, or 12 and it had done something, and they are
/// sums as those of one that is done. Where no copy may be offered a turn deals with 16 objects at most. Sums are told in numerals too.
pub fn book_is_told_so()
    ensures rounds { RoundsAreRefusedSo }
    ensures sums { SumsAreTold }
    ensures lines { BookIsToldSo }
{}
