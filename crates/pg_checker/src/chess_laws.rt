//! Laws of the walk over chess, each the contract of a function that does nothing. Lengths are in
//! plies.
ghost use Rattle.std.specs.Prelude.{◌≡◌, ◌≢◌, ◌↔◌, ◌∷◌, ◌++◌, ◌≤◌, ◌<◌, ℕ, suc, List, [], Option, Some, None, length};
ghost use Rattle.std.specs.Prelude.{Ok, Err};
ghost use Rattle.pg_board.specs.Placement.{Placement};
ghost use Rattle.pg_position.specs.declared.state.State.{State};
ghost use Rattle.pg_position.specs.declared.moves.Move.{Move};
ghost use Rattle.pg_position.specs.Array.{array_state};
ghost use Rattle.pg_moves.specs.Moves.{IsNext, IsLast};
ghost use Rattle.pg_moves.specs.inner.Places.{most_moves};
ghost use Rattle.pg_certificate.specs.declared.fault.ReadFault.{ReadFault};
ghost use Rattle.pg_certificate.specs.declared.record.Record.{Record};
ghost use Rattle.pg_certificate.specs.Laws.{IsCutShort, IsUnknownAt};
ghost use Rattle.pg_certificate.specs.Reading.{record_at};
ghost use Rattle.pg_certificate.specs.Spelling.{spelling, AreBytes, IsRecordOf};
ghost use Rattle.pg_checker.specs.Answer.{IsExactAnswer, AreSolutions};
ghost use Rattle.pg_checker.specs.Chess.{Cuts, IsSoundCut, IsChess, chess, cause_of, renamed, read};
ghost use Rattle.pg_checker.specs.Claims.{IsExact, IsCertificate};
ghost use Rattle.pg_checker.specs.Left.{left_after};
ghost use Rattle.pg_checker.specs.Telling.{HasShorter, IsMissing};
ghost use Rattle.pg_checker.specs.Tree.{Rules, Trees, Cause, Truncated, UnknownRecord, TooManyNamed, spelling_all};
ghost use Rattle.pg_checker.specs.Tree.{records_all};
ghost use Rattle.pg_checker.specs.Whole.{IsAtNamed, full_from, answer, IsAccepted, IsRefusedFor};

/// The rules by which the walk goes are those of chess, with the cuts handed in and the records of
/// certificates of their version, and no state has more than 28,672 moves.
#[tactic(auto, using(crate::proofs::Chess::of_chess))]
pub fn rules_are_those_of_chess()
    ensures rules { (d : Placement) (n : ℕ) (games : List (List Move)) (cut : Cuts)
        → IsChess (chess d n games cut) cut.version d n games }
    ensures cuts { (d : Placement) (n : ℕ) (games : List (List Move)) (cut : Cuts)
        → (chess d n games cut).cut ≡ cut.bounds }
    ensures prices { (d : Placement) (n : ℕ) (games : List (List Move)) (cut : Cuts)
        → (chess d n games cut).priced ≡ cut.prices }
    ensures reads { (d : Placement) (n : ℕ) (games : List (List Move)) (cut : Cuts)
        → (chess d n games cut).read ≡ read cut.version }
    ensures records { (d : Placement) (n : ℕ) (games : List (List Move)) (cut : Cuts) → IsExact (chess d n games cut) }
    ensures few { (d : Placement) (n : ℕ) (games : List (List Move)) (cut : Cuts) (p : State)
        → length ((chess d n games cut).moves p) ≤ most_moves }
{}

/// The walk reads records as those of its version are read from bytes: Truncated stands where the bytes
/// are less than a whole record, and UnknownRecord at the first that no record can have at its place.
pub fn records_are_read_as_spelled()
    ensures bytes { (version : ℕ) (bytes : List ℕ) → AreBytes bytes
        → read version bytes ≡ renamed (record_at version bytes) }
    ensures spelled { (version : ℕ) (x : Record) (rest : List ℕ) → IsRecordOf version x
        → read version (spelling x ++ rest) ≡ Ok (x, rest) }
    ensures truncated { (version : ℕ) (bytes : List ℕ) → AreBytes bytes
        → read version bytes ≡ Err Truncated ↔ IsCutShort version bytes }
    ensures unknown { (version : ℕ) (bytes : List ℕ) (x : ℕ) → AreBytes bytes
        → read version bytes ≡ Err (UnknownRecord x) ↔ IsUnknownAt version bytes x }
    ensures refusals { (version : ℕ) (bytes : List ℕ) (e : ReadFault) → record_at version bytes ≡ Err e
        → read version bytes ≡ Err (cause_of e) }
{}

/// Of the moves that the rules have for a position the next legal one comes first, and what is left
/// after it is what is left of them.
#[tactic(auto, using(crate::proofs::Left::in_order))]
pub fn moves_come_in_order()
    ensures start { (d : Placement) (n : ℕ) (games : List (List Move)) (cut : Cuts) (p : State)
        → (chess d n games cut).moves p ≡ left_after p None }
    ensures next { (p : State) (last : Option Move) (m : Move) → IsNext p last m
        → left_after p last ≡ m ∷ left_after p (Some m) }
    ensures end { (p : State) (last : Option Move) → IsLast p last → left_after p last ≡ [] }
{}

/// A yes to a list of solutions proves the exact answer.
pub fn accepted_is_exact()
    ensures { (d : Placement) (n : ℕ) (games : List (List Move)) (cut : Cuts) → IsSoundCut d cut
        → (a b : ℕ) (bytes : List ℕ) (x : ℕ × ℕ) → answer (chess d n games cut) array_state a b bytes ≡ Ok x
        → AreSolutions d n games → IsExactAnswer d n games }
{}

/// No exact answer is without a certificate: that which expands every node with a ply left fits, and
/// its bytes are answered by a yes, whatever the limit of named nodes.
pub fn exact_has_a_certificate()
    ensures fits { (d : Placement) (n : ℕ) (games : List (List Move)) (cut : Cuts) → IsExactAnswer d n games
        → IsCertificate (chess d n games cut) array_state (full_from (chess d n games cut) (suc n) 0 array_state) }
    ensures accepted { (d : Placement) (n : ℕ) (games : List (List Move)) (cut : Cuts) → IsExactAnswer d n games
        → let r : Rules State Move = chess d n games cut in let trees : Trees = full_from r (suc n) 0 array_state in
        (a b : ℕ) → records_all trees ≤ a → answer r array_state a b (spelling_all r trees)
        ≡ Ok (records_all trees, 0) }
{}

/// A yes is given exactly to the whole spelling of a certificate that fits, within the limits.
pub fn accepted_where_it_fits()
    ensures { (d : Placement) (n : ℕ) (games : List (List Move)) (cut : Cuts) (a b : ℕ) (bytes : List ℕ) (x : ℕ × ℕ)
        → answer (chess d n games cut) array_state a b bytes ≡ Ok x
        ↔ IsAccepted (chess d n games cut) array_state a b bytes x }
{}

/// A fault is answered exactly where it is the first cause at a front, or, for Trailing, where bytes
/// stand behind a certificate that fits. Where a walk that may keep fewer named nodes than are allowed
/// answers TooManyNamed, the walk that may keep all comes to that place without a cause to stop, and a
/// named node is next.
pub fn refused_at_the_first_cause()
    ensures cause { (d : Placement) (n : ℕ) (games : List (List Move)) (cut : Cuts) (a b : ℕ) (bytes : List ℕ)
        (f : Cause Move)
        → answer (chess d n games cut) array_state a b bytes ≡ Err f
        ↔ IsRefusedFor (chess d n games cut) array_state a b bytes f }
    ensures memory { (d : Placement) (n : ℕ) (games : List (List Move)) (cut : Cuts) (a b fewer : ℕ) (bytes : List ℕ)
        → fewer < b → answer (chess d n games cut) array_state a fewer bytes ≡ Err TooManyNamed
        → IsAtNamed (chess d n games cut) array_state a b bytes }
{}

/// With a game that is called unlisted no list of those games is the exact answer, and with a shorter game
/// no list is.
pub fn what_refusals_prove()
    ensures unlisted { (d : Placement) (n : ℕ) (games : List (List Move)) (game : List Move)
        → IsMissing d n games game → ¬ IsExactAnswer d n games }
    ensures shorter { (d : Placement) (n m : ℕ) (games : List (List Move))
        → HasShorter d n m → ¬ IsExactAnswer d n games }
{}
