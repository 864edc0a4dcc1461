//! What the two ends owe, and that it is owed of some.

ghost use Rattle.std.specs.Prelude.{◌≡◌, ℕ, List, length};
ghost use Rattle.domain_base.specs.Octets.{AreOctets};
ghost use Rattle.key_hierarchy.specs.declared.answers.PullAnswer.{PullAnswer};
ghost use Rattle.key_hierarchy.specs.declared.answers.PullAnswer.TheVariants as pulled;
ghost use Rattle.key_holders.specs.Keys.{row_r1};
ghost use Rattle.key_holders.specs.Pulls.{Matches};
ghost use Rattle.key_holders.specs.declared.rows.HeldRow.{HeldRow};
ghost use Rattle.key_holders.specs.declared.rows.HolderRow.{HolderRow};
ghost use Rattle.link_steps.specs.declared.faults.LinkFault.{LinkFault};
ghost use Rattle.link_steps.specs.declared.questions.Question.{Question};
ghost use Rattle.link_steps.specs.declared.steps.Step.{Step};
ghost use Rattle.holder_link.specs.declared.server.Server.{Server};
ghost use Rattle.holder_link.specs.Acts.{PulledFrom};
ghost use Rattle.holder_link.specs.Asker.{Asking, Learns, RefusesAnswer};
ghost use Rattle.holder_link.specs.Datagrams.{IsQuestion};
ghost use Rattle.holder_link.specs.Delivered.{without_rows, IsDelivered};
ghost use Rattle.holder_link.specs.History.{Link, IsRun};
ghost use Rattle.holder_link.specs.Learning.{NoncesDiffer, Unforged, LearntRight};
ghost use Rattle.holder_link.specs.Server.{Tells, RefusesAsk};

/// What becomes of octets at the end that asks is one thing at most, by its link key and its open
/// questions: one answer to one question, or one fault. So what `Asker::take` says of its result
/// is exact both ways. The call does nothing: its contract is the law.
pub fn answers_are_taken_in_one_way()
    ensures learnt { (s : Asking) (octets : List ℕ) (n m : ℕ) (a b : PullAnswer) → AreOctets s.kek
        → Learns s octets n a → Learns s octets m b → (n ≡ m) × (a ≡ b) }
    ensures refused { (s : Asking) (octets : List ℕ) (e f : LinkFault)
        → RefusesAnswer s octets e → RefusesAnswer s octets f → e ≡ f }
    ensures apart { (s : Asking) (octets : List ℕ) (n : ℕ) (a : PullAnswer) (e : LinkFault)
        → Learns s octets n a → ¬ RefusesAnswer s octets e }
{}

/// What becomes of octets at the end that has key holders is one thing at most, by its link key and
/// what a pull gives: one Answer, or one fault. So what `Server::tell` says of its result is exact
/// both ways. The call does nothing: its contract is the law.
pub fn asks_are_answered_in_one_way()
    ensures sent { (s : Server) (octets : List ℕ) (ids others : List (List ℕ))
        (rows before : List HeldRow) (a : PullAnswer) (sent other : List ℕ)
        → Tells s octets (PulledFrom ids rows) a sent
        → Tells s octets (PulledFrom others before) a other → sent ≡ other }
    ensures refused { (kck octets : List ℕ) (e f : LinkFault)
        → RefusesAsk kck octets e → RefusesAsk kck octets f → e ≡ f }
    ensures apart { (s : Server) (octets : List ℕ) (ids : List (List ℕ)) (rows : List HeldRow)
        (a : PullAnswer) (sent : List ℕ) (e : LinkFault)
        → Tells s octets (PulledFrom ids rows) a sent → ¬ RefusesAsk s.kck octets e }
{}

/// Over every history of both ends, whatever came to them: where the nonces of all questions differ
/// and each CMAC that verified belongs to a datagram that an end sent, each question is learnt at
/// most once, after its ask, with an answer that the server gave to it by its rows at that point.
/// The call does nothing: its contract is the law.
pub fn answers_are_right()
    ensures { (link : Link) (h : List Step) → AreOctets link.kek → IsRun link h → NoncesDiffer h
        → Unforged h → LearntRight link h }
{}

/// Whatever the link key, the question, its nonce and the row that it asks for: there is a history
/// of both ends that meets these two premises, and in which the answer to the first question is
/// learnt, the row's PMK-R1. So the law above is not about histories that never come. The call does
/// nothing: its contract is the law.
pub fn answers_can_be_learnt()
    ensures { (kck kek nonce : List ℕ) (q : Question) (row : HolderRow) → AreOctets kek
        → length nonce ≡ 16 → IsQuestion q → Matches q.name q.sta row → (h : List Step)
        × IsDelivered (without_rows kck kek q.r0kh_id) 0 (pulled.Found (row_r1 row q.r1kh)) h }
{}
