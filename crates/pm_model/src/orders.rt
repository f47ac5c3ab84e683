//! In which order the accepted lines of a script may be logged, where each partition's lines are
//! served by themselves. The functions do nothing: each states a law.

ghost use Rattle.std.specs.Prelude.{◌≡◌, ℕ, ◌+◌, ◌<◌, ◌≤◌, ◌==◌, nat_lt, not, List, [], ◌∷◌, ◌++◌};
ghost use Rattle.std.specs.Prelude.{filter, length, take, true, false};
ghost use Rattle.std.specs.List.{All, AllPairs, Contains};
ghost use Rattle.pm_types.specs.declared.limits.TheConstants.{BATCH_LINES_MAX};
ghost use Rattle.pm_types.specs.declared.shape.Shape.{Shape};
ghost use Rattle.pm_model.specs.declared.line.Line.{Line};
ghost use Rattle.pm_model.specs.Eval.{Pairs, reply_to, after, is_accepted, replies_to, after_all, accepted};
ghost use Rattle.pm_model.specs.Orders.{line_at, after_numbers, part_of_line, numbers_of, IsPrefix};
ghost use Rattle.pm_model.specs.Orders.{is_barrier, IsOrderOf, HasAccepted, HasTried, AreAccepted};
ghost use Rattle.pm_model.specs.Orders.{part_rows, below, lines_of, replies_in};

/// Script order is an order as far as it goes, and has tried so many lines.
pub fn script_order_is_an_order()
    ensures { (shape : Shape) (from : ℕ) (lines : List Line) (pairs : Pairs) (count more many : ℕ)
        → count ≤ many → many ≤ count + more
        → HasTried shape from lines pairs count more (accepted shape from (take many lines) pairs) }
{}

/// An order has numbers of accepted lines alone, and those of one partition rise: so each stands in
/// it once, and a line passes only lines of other partitions.
pub fn orders_have_accepted_lines_once()
    ensures accepted { (shape : Shape) (from : ℕ) (lines : List Line) (pairs : Pairs) (order : List ℕ)
        → IsOrderOf shape from lines pairs order → All (Contains (accepted shape from lines pairs)) order }
    ensures rises { (shape : Shape) (from : ℕ) (lines : List Line) (pairs : Pairs) (order : List ℕ)
        → IsOrderOf shape from lines pairs order
        → AllPairs (λ a b. part_of_line shape (line_at from lines a)
        ≡ part_of_line shape (line_at from lines b) → a < b) order }
{}

/// The first numbers of an order are an order, and what they leave of a partition's rows is what a
/// prefix of that partition's accepted lines leave.
pub fn the_first_of_an_order_are_one()
    ensures order { (shape : Shape) (from : ℕ) (lines : List Line) (pairs : Pairs) (order : List ℕ) (count : ℕ)
        → IsOrderOf shape from lines pairs order → IsOrderOf shape from lines pairs (take count order) }
    ensures rows { (shape : Shape) (from : ℕ) (lines : List Line) (pairs : Pairs) (order : List ℕ)
        (count part : ℕ)
        → IsOrderOf shape from lines pairs order
        → (first : List ℕ) × IsPrefix first (numbers_of shape part from lines (accepted shape from lines pairs))
        × (part_rows shape part (after_numbers shape (take count order) from lines pairs)
        ≡ part_rows shape part (after_numbers shape first from lines pairs)) }
{}

/// What a crash leaves of a complete order lacks none of the accepted lines but those among the
/// last few that were logged: it has each that is a whole batch before one that it has.
pub fn the_first_of_an_order_have_old_lines()
    ensures { (shape : Shape) (from : ℕ) (lines : List Line) (pairs : Pairs) (order : List ℕ)
        (done count later earlier : ℕ)
        → IsOrderOf shape from lines pairs order → HasAccepted shape from lines pairs done order
        → Contains (take count order) later → Contains (accepted shape from (take done lines) pairs) earlier
        → earlier + BATCH_LINES_MAX ≤ later → Contains (take count order) earlier }
{}

/// Each line of an order is accepted where it stands, so that a log in this order can be applied again.
pub fn orders_can_be_applied()
    ensures { (shape : Shape) (from : ℕ) (lines : List Line) (pairs : Pairs) (order : List ℕ)
        → IsOrderOf shape from lines pairs order → AreAccepted shape order from lines pairs }
{}

/// An order of some lines that has all their accepted ones is gone on by an order of the lines after them.
pub fn orders_join()
    ensures { (shape : Shape) (from : ℕ) (done lines : List Line) (pairs : Pairs) (order next : List ℕ)
        (count more : ℕ)
        → HasTried shape from done pairs (length done) 0 order
        → HasTried shape (from + length done) lines (after_all shape done pairs) count more next
        → HasTried shape from (done ++ lines) pairs (length done + count) more (order ++ next) }
{}

/// Of few lines without a scan or a checkpoint, the partitions' prefixes alone make an order.
pub fn a_batch_needs_prefixes_alone()
    ensures { (shape : Shape) (from : ℕ) (lines : List Line) (pairs : Pairs) (order : List ℕ)
        → length lines ≤ BATCH_LINES_MAX → All (λ line. is_barrier line ≡ false) lines
        → ((part : ℕ) → IsPrefix (numbers_of shape part from lines order)
        (numbers_of shape part from lines (accepted shape from lines pairs)))
        → IsOrderOf shape from lines pairs order }
{}

/// A line's reply, whether it is accepted and what it changes depend on the rows of its partition
/// alone, and it changes no others. A scan's reply alone depends on all.
pub fn a_line_depends_on_its_partition()
    ensures reply { (shape : Shape) (line : Line) (pairs : Pairs) → is_barrier line ≡ false
        → reply_to shape line (part_rows shape (part_of_line shape line) pairs) ≡ reply_to shape line pairs }
    ensures accepted { (shape : Shape) (line : Line) (pairs : Pairs)
        → is_accepted shape line (part_rows shape (part_of_line shape line) pairs)
        ≡ is_accepted shape line pairs }
    ensures change { (shape : Shape) (line : Line) (pairs : Pairs)
        → part_rows shape (part_of_line shape line) (after shape line pairs)
        ≡ after shape line (part_rows shape (part_of_line shape line) pairs) }
    ensures others { (shape : Shape) (part : ℕ) (line : Line) (pairs : Pairs)
        → (part_of_line shape line == part) ≡ false
        → part_rows shape part (after shape line pairs) ≡ part_rows shape part pairs }
    ensures maps { (shape : Shape) (a b : Pairs)
        → ((part : ℕ) → part_rows shape part a ≡ part_rows shape part b) → a ≡ b }
{}

/// Whatever the order, the map is the script's: when all is done, when the first lines are, and
/// below any line's number.
pub fn orders_leave_the_scripts_map()
    ensures whole { (shape : Shape) (from : ℕ) (lines : List Line) (pairs : Pairs) (order : List ℕ)
        → IsOrderOf shape from lines pairs order → HasAccepted shape from lines pairs (length lines) order
        → after_numbers shape order from lines pairs ≡ after_all shape lines pairs }
    ensures tried { (shape : Shape) (from : ℕ) (lines : List Line) (pairs : Pairs) (count : ℕ) (order : List ℕ)
        → HasTried shape from lines pairs count 0 order
        → after_numbers shape order from lines pairs ≡ after_all shape (take count lines) pairs }
    ensures before { (shape : Shape) (from : ℕ) (lines : List Line) (pairs : Pairs) (order : List ℕ) (count : ℕ)
        → IsOrderOf shape from lines pairs order → HasAccepted shape from lines pairs count order
        → after_numbers shape (below (from + count) order) from lines pairs
        ≡ after_all shape (take count lines) pairs }
{}

/// Replies that are found partition by partition, in an order that has the accepted ones among the
/// first lines, are those of script order. So are those of a worker that saw its partition's lines
/// alone.
pub fn replies_are_the_scripts()
    ensures by_order { (shape : Shape) (from : ℕ) (lines : List Line) (pairs : Pairs) (order : List ℕ)
        (count : ℕ)
        → IsOrderOf shape from lines pairs order → HasAccepted shape from lines pairs count order
        → replies_in shape from lines pairs order from (take count lines)
        ≡ replies_to shape (take count lines) pairs }
    ensures by_worker { (shape : Shape) (done : List Line) (line : Line) (pairs : Pairs)
        → is_barrier line ≡ false
        → reply_to shape line
        (after_all shape (lines_of shape (part_of_line shape line) done)
        (part_rows shape (part_of_line shape line) pairs))
        ≡ reply_to shape line (after_all shape done pairs) }
{}

/// In script order, a prefix of the numbers have each acknowledged one exactly if they are as many.
pub fn acknowledged_by_number_or_by_count()
    ensures counted { (shape : Shape) (from : ℕ) (lines : List Line) (pairs : Pairs) (told tried count : ℕ)
        → All (Contains (take count (accepted shape from (take tried lines) pairs)))
        (accepted shape from (take told lines) pairs)
        → length (accepted shape from (take told lines) pairs) ≤ count }
    ensures named { (shape : Shape) (from : ℕ) (lines : List Line) (pairs : Pairs) (told tried count : ℕ)
        → count ≤ length (accepted shape from (take tried lines) pairs)
        → length (accepted shape from (take told lines) pairs) ≤ count
        → All (Contains (take count (accepted shape from (take tried lines) pairs)))
        (accepted shape from (take told lines) pairs) }
{}

/// A scan or a checkpoint parts an order: the numbers below its own stand in front of the others.
pub fn barriers_part_an_order()
    ensures { (shape : Shape) (from : ℕ) (lines : List Line) (pairs : Pairs) (order : List ℕ) (number : ℕ)
        → IsOrderOf shape from lines pairs order → is_barrier (line_at from lines number) ≡ true
        → order ≡ below number order ++ filter (λ n. not (nat_lt n number)) order }
{}

/// An order need not be script order: two accepted lines of two partitions may be logged in turn or
/// the other way round.
pub fn two_lines_may_be_swapped()
    ensures { (shape : Shape) (pairs : Pairs) (a b : Line) → is_accepted shape a pairs ≡ true
        → is_accepted shape b (after shape a pairs) ≡ true
        → (part_of_line shape a == part_of_line shape b) ≡ false
        → IsOrderOf shape 1 (a ∷ b ∷ []) pairs (2 ∷ 1 ∷ []) }
{}
