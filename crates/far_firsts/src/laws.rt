//! What the first lines of each kind are, in other words.

ghost use Rattle.std.specs.Prelude.{◌≡◌, ◌+◌, ◌<◌, ◌++◌, ◌∷◌, [], ℕ, List, true, false, length, map, take};
ghost use Rattle.far_seen.specs.Tallied.{Counts, count_of, counted, line_of, often, total};
ghost use Rattle.far_firsts.specs.Lines.{ArePlain, closed, lines_of, text_of};
ghost use Rattle.far_firsts.specs.Firsts.{firsts, firsts_by, is_among, unless_among, NoneTwice, IsPartOf};
ghost use Rattle.far_firsts.specs.Tallies.{AreCounted, how_often, tally};

/// The lines of a text have no end in them; and they and their ends are the text, with an end after the last line if that has none.
pub fn lines_are_between_ends()
    ensures plain { (end : ℕ) (text : List ℕ) → ArePlain end (lines_of end text) }
    ensures all { (end : ℕ) (text : List ℕ) → text_of end (lines_of end text) ≡ closed end text }
{}

/// No line stands twice in them; they have each line; they are the lines, in their order, with some left out; and a line that comes next is
/// one of them exactly if it isn't among those that came.
pub fn firsts_are_one_of_each()
    ensures none_twice { (lines : List (List ℕ)) → NoneTwice (firsts lines) }
    ensures each { (lines : List (List ℕ)) (line : List ℕ) → is_among line (firsts lines) ≡ is_among line lines }
    ensures part { (lines : List (List ℕ)) → IsPartOf (firsts lines) lines }
    ensures next { (lines : List (List ℕ)) (line : List ℕ) → firsts (lines ++ line ∷ []) ≡ firsts lines ++ unless_among lines line }
{}

/// What a run prints that ends early is how the right output begins.
pub fn what_is_printed_is_a_prefix()
    ensures { (end n : ℕ) (lines : List (List ℕ)) → (rest : List ℕ) × (text_of end (firsts lines) ≡ text_of end (firsts (take n lines)) ++ rest) }
{}

/// What is printed whatever the far side gives: of a text that has a line something; of each line one that has its stamp; the first of each
/// kind where none that differ have the same; and at worst, where all have the same, the first line.
pub fn the_first_of_each_stamp_is_printed()
    ensures some { (stamp : List ℕ → List ℕ) (line : List ℕ) (lines : List (List ℕ)) → IsPartOf (firsts_by stamp [] (line ∷ lines)) [] → ⊥ }
    ensures each { (stamp : List ℕ → List ℕ) (line : List ℕ) (lines printed : List (List ℕ)) → IsPartOf (firsts_by stamp [] lines) printed → is_among line lines ≡ true → is_among (stamp line) (map stamp printed) ≡ true }
    ensures apart { (stamp : List ℕ → List ℕ) (lines : List (List ℕ)) → ((l m : List ℕ) → is_among l lines ≡ true → is_among m lines ≡ true → stamp l ≡ stamp m → l ≡ m) → firsts_by stamp [] lines ≡ firsts lines }
    ensures worst { (line : List ℕ) (lines : List (List ℕ)) → firsts_by (λ l. []) [] (line ∷ lines) ≡ line ∷ [] }
{}

/// Each line that is counted is the first of its kind, in order; they came as often as there are lines; a line that comes next is counted
/// where it stands, or comes last; and it comes as often as in two parts of the lines.
pub fn counts_are_of_each()
    ensures firsts { (lines : List (List ℕ)) → map (λ p. p.0) (tally lines) ≡ firsts lines }
    ensures total { (lines : List (List ℕ)) → total (tally lines) ≡ length lines }
    ensures next { (lines : List (List ℕ)) (line : List ℕ) → tally (lines ++ line ∷ []) ≡ counted (tally lines) line }
    ensures parts { (line : List ℕ) (xs ys : List (List ℕ)) → how_often line (xs ++ ys) ≡ how_often line xs + how_often line ys }
    ensures none { (line : List ℕ) (lines : List (List ℕ)) → is_among line lines ≡ false → how_often line lines ≡ 0 }
{}

/// What is counted whatever the far side gives: the right counts are so; what is counted has a stamp that came; where no two lines have the
/// same, each is counted as often as it came; and at worst, where all have the same, the counts sum up.
pub fn each_stamp_is_counted()
    ensures right { (stamp : List ℕ → List ℕ) (lines : List (List ℕ)) → AreCounted stamp lines (tally lines) }
    ensures came { (stamp : List ℕ → List ℕ) (lines : List (List ℕ)) (counts : Counts) (k : ℕ) → AreCounted stamp lines counts → 0 < count_of counts k → is_among (stamp (line_of counts k)) (map stamp lines) ≡ true }
    ensures apart { (stamp : List ℕ → List ℕ) (lines : List (List ℕ)) (counts : Counts) (line : List ℕ) → ((l m : List ℕ) → stamp l ≡ stamp m → l ≡ m) → AreCounted stamp lines counts → often line counts ≡ how_often line lines }
    ensures worst { (lines : List (List ℕ)) (counts : Counts) → AreCounted (λ l. []) lines counts → total counts ≡ length lines }
{}
