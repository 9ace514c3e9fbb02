//! Laws of the walk over a spelled tree, each the contract of a function that does nothing. They
//! hold of every game, whatever its rules `r` are; those of `chess_laws` are these over chess.
ghost use Rattle.std.specs.Prelude.{◌≡◌, ◌↔◌, ◌∷◌, ◌++◌, ◌≤◌, ◌<◌, ℕ, suc, Bool, true, List, length, Ok, Err};
ghost use Rattle.pg_checker.specs.Claims.{IsExact, IsRight, IsComplete, IsCertificate};
ghost use Rattle.pg_checker.specs.inner.Frames.{Frame, Work, resume, finish, turn, effort};
ghost use Rattle.pg_checker.specs.Front.{Halts};
ghost use Rattle.pg_checker.specs.Tree.{Rules, Trees, Cause, TooManyNamed, spelling_all, records_all};
ghost use Rattle.pg_checker.specs.Walk.{WalkState, Shape, head, visit, ◌>>=◌ as and_then};
ghost use Rattle.pg_checker.specs.Whole.{IsAtNamed, full_from, answer, IsAccepted, IsRefusedFor};

// A yes proves that the list is complete.
pub(crate) fn accepted_is_complete<P, M>()
    ensures { (r : Rules P M) (met : P → Bool) → IsExact r → IsRight r (λ q. met q ≡ true)
        → (p : P) → met p ≡ true → (a b : ℕ) (bytes : List ℕ) (x : ℕ × ℕ) → answer r p a b bytes ≡ Ok x
        → IsComplete r p }
{}

// A yes is given exactly to the whole spelling of a certificate that fits.
pub(crate) fn accepted_where_it_fits<P, M>()
    ensures { (r : Rules P M) → IsExact r → (p : P) (a b : ℕ) (bytes : List ℕ) (x : ℕ × ℕ)
        → answer r p a b bytes ≡ Ok x ↔ IsAccepted r p a b bytes x }
{}

// A fault is answered exactly where it is the first cause at a front, or, for Trailing, where bytes
// stand behind a certificate that fits. Where memory runs out, a front without a cause stands before
// a named node.
pub(crate) fn refused_at_the_first_cause<P, M>()
    ensures cause { (r : Rules P M) → IsExact r → (p : P) (a b : ℕ) (bytes : List ℕ) (f : Cause M)
        → answer r p a b bytes ≡ Err f ↔ IsRefusedFor r p a b bytes f }
    ensures memory { (r : Rules P M) → IsExact r → ((bytes : List ℕ) → r.read bytes ≡ Err TooManyNamed → ⊥)
        → (p : P) (a b fewer : ℕ) (bytes : List ℕ) → fewer < b → answer r p a fewer bytes ≡ Err TooManyNamed
        → IsAtNamed r p a b bytes }
{}

// No complete list is without a certificate: that which expands every node with a ply left fits,
// and its bytes are answered by a yes, whatever the limit of named nodes.
pub(crate) fn complete_has_a_certificate<P, M>()
    ensures fits { (r : Rules P M) (p : P) → IsComplete r p → IsCertificate r p (full_from r (suc r.plies) 0 p) }
    ensures accepted { (r : Rules P M) → IsExact r → (p : P) → IsComplete r p
        → let trees : Trees = full_from r (suc r.plies) 0 p in
        (a b : ℕ) → records_all trees ≤ a → answer r p a b (spelling_all r trees) ≡ Ok (records_all trees, 0) }
{}

// Where a front with a first cause is spelled, the walk answers it.
pub(crate) fn stops_at_the_first_cause<P, M>()
    ensures { (r : Rules P M) → IsExact r → (n k : ℕ) (g : List M) (p : P) (s : WalkState P) (f : Cause M)
        → visit r n k g p s ≡ Err f ↔ Halts r n k g p s f }
{}

// A turn leaves the answer of the rest unchanged, and less to do.
pub(crate) fn turns_lead_on<P, M>()
    ensures same { (r : Rules P M) (n : ℕ) (f : Frame P M) (fs : List (Frame P M)) (found : Bool) (s : WalkState P)
        → resume r n (f ∷ fs) (found, s) ≡ and_then (turn r n f fs found s) (finish r n) }
    ensures less { (r : Rules P M) → IsExact r → (most : ℕ) → ((p : P) → length (r.moves p) ≤ most)
        → (n : ℕ) (f : Frame P M) (fs : List (Frame P M)) (found : Bool) (s : WalkState P) (w : Work r)
        → turn r n f fs found s ≡ Ok w
        → effort r most w < effort r most (record { frames = f ∷ fs; found = found; state = s }) }
{}

// A record, and a whole tree, are read alike whatever comes after the bytes that they take.
pub(crate) fn only_what_is_taken_counts<P, M>()
    ensures head { (r : Rules P M) → IsExact r
        → (k : ℕ) (p : P) (s t : WalkState P) (shape : Shape) (bytes rest : List ℕ)
        → head r k p s ≡ Ok (shape, t) → s.rest ≡ bytes ++ t.rest
        → head r k p (record s { rest = bytes ++ rest }) ≡ Ok (shape, record t { rest = rest }) }
    ensures tree { (r : Rules P M) → IsExact r
        → (n k : ℕ) (g : List M) (p : P) (s t : WalkState P) (found : Bool) (bytes rest : List ℕ)
        → visit r n k g p s ≡ Ok (found, t) → s.rest ≡ bytes ++ t.rest
        → visit r n k g p (record s { rest = bytes ++ rest }) ≡ Ok (found, record t { rest = rest }) }
{}
