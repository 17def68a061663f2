// Three small tests on a topic's bytes (document 01, "Order inside one inspection"; 000, the same names).
ghost use Rattle.std.specs.Prelude.{◌≡◌, [], ◌∷◌};
ghost use Rattle.topics.specs.Names.{is_broad, starts_with_dollar, bad_publish};

// A Subscribe to one of these three takes a whole broker.
#[tactic(auto, unfolding(slices::specs::Bytes::same))]
pub fn is_broad_wildcard_subscribe(topic: &[u8]) -> bool
    ensures { result ≡ is_broad topic.now }
{
    matches!(topic, b"#" | b"+" | b"+/#")
}

// MQTT 3.1.1 section 4.7.2 keeps such names for the broker.
pub fn starts_with_dollar(topic: &[u8]) -> bool
    ensures { result ≡ starts_with_dollar topic.now }
{
    matches!(topic, [b'$', ..])
}

// A byte that no Publish may carry.
#[tactic(auto, using(crate::proofs::names::NameLaws::bad_one))]
fn is_bad_byte(b: u8) -> bool
    ensures { result ≡ bad_publish (b ∷ []) }
{
    matches!(b, 0 | b'+' | b'#')
}

// A Publish of such a topic is refused.
pub fn contains_invalid_publish_char(topic: &[u8]) -> bool
    ensures { result ≡ bad_publish topic.now }
{
    topic.iter().any(|b| is_bad_byte(*b))
}
