ghost use Rattle.std.specs.List.{AllByRecursion, Contains};
ghost use Rattle.std.specs.Prelude.{◌≡◌, ℕ, ◌<◌, ◌≤◌, ◌^◌, true, Option, Some, Result, List, [], ◌∷◌};
ghost use Rattle.oc_base.specs.Codes.{AreDistinct};
ghost use Rattle.oc_base.specs.declared.limits.TheConstants.{MAX_NODES};
ghost use Rattle.oc_model.specs.Lawful.{IsMessage};
ghost use Rattle.oc_model.specs.declared.message.Message.{Message};
ghost use Rattle.oc_policy.specs.Keys.{Keyring, keys_in};
ghost use Rattle.oc_wire.specs.Macs.{HasMac, is_authentic, mac_for};
ghost use Rattle.oc_wire.specs.Examples.{first_ask, first_ask_message, chain_no, chain_no_message, stranger, strange_kind, trailing};
ghost use Rattle.oc_wire.specs.Messages.{Spells};
ghost use Rattle.oc_wire.specs.MessageReading.{decoded};
ghost use Rattle.oc_wire.specs.Requests.{AnswersRequest, HasMemory};
ghost use Rattle.oc_wire.specs.Rows.{HasLeast, HasLength};
ghost use Rattle.oc_wire.specs.Spelling.{spelling};
ghost use Rattle.oc_wire.specs.declared.http_fault.HttpWireFault.{HttpWireFault};
ghost use Rattle.oc_wire.specs.declared.fault.WireFault.TheVariants.{Stranger as WireStranger, Short as WireShort, Kind as WireKind, Trailing as WireTrailing};

use crate::{CODES, REFUSALS};
use oc_base::distinct;
use oc_http::a_request_has_one_answer;

/// No two kinds have one code, and no two refusals. It is computed.
pub fn codes_are_distinct()
    ensures kinds { AreDistinct CODES }
    ensures refusals { AreDistinct REFUSALS }
{
    let _kinds = distinct(&CODES);
    let _refusals = distinct(&REFUSALS);
}

/// Each row has the least length of the bytes after its code. It is computed.
pub fn least_lengths_are_exact()
    ensures kinds { AllByRecursion HasLeast CODES }
    ensures refusals { AllByRecursion HasLength REFUSALS }
{}

/// No two lawful messages have one spelling.
pub fn no_two_messages_have_one_spelling()
    ensures { (nodes : ℕ) (bytes : List ℕ) (first second : Message) → nodes < 2 ^ 32
        → Spells nodes bytes first → Spells nodes bytes second → first ≡ second }
{}

/// Each lawful message has a spelling, and it is read as that message.
pub fn spellings_are_read()
    ensures spelled { (nodes : ℕ) (message : Message) → nodes ≤ MAX_NODES → IsMessage nodes message
        → Spells nodes (spelling message) message }
    ensures read { (nodes : ℕ) (bytes : List ℕ) (message : Message) → nodes < 2 ^ 32
        → Spells nodes bytes message → decoded nodes bytes ≡ Ok message }
{}

/// There is one answer to the bytes of a request, apart from running out of memory.
pub fn requests_have_one_answer()
    ensures { (nodes : ℕ) (bytes : List ℕ) (first second : Result Message HttpWireFault) → AnswersRequest nodes bytes first
        → AnswersRequest nodes bytes second → HasMemory first → HasMemory second → first ≡ second }
{
    a_request_has_one_answer();
}

/// Where the nodes have keys, a message that is taken for theirs has its MAC under one of these; and a message that goes
/// out with its MAC under one of these is taken for theirs.
pub fn messages_have_macs_under_a_key()
    ensures believed { (ring : Keyring) (said : Option (List ℕ)) (body : List ℕ) → is_authentic (Some ring) said body ≡ true
        → HasMac ring said body }
    ensures sent { (ring : Keyring) (key body : List ℕ) → Contains (keys_in ring) key
        → is_authentic (Some ring) (mac_for (Some key) body) body ≡ true }
{}

/// Worked examples of reading come out as they should. They are computed.
pub fn examples_are_read()
    ensures ask { decoded 3 first_ask ≡ Ok first_ask_message }
    ensures refusal { decoded 3 chain_no ≡ Ok chain_no_message }
    ensures stranger { decoded 3 stranger ≡ Err WireStranger }
    ensures kind { decoded 3 strange_kind ≡ Err (WireKind 99) }
    ensures trailing { decoded 3 trailing ≡ Err WireTrailing }
    ensures cut { decoded 3 [] ≡ Err WireShort }
{}
