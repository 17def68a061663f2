// The tests of strings and patterns, the two matchers and the three small tests on a topic (document 01, "Topics, level by level"; request C-16).
ghost use Rattle.std.specs.Prelude.{◌≡◌};
ghost use Rattle.topics.specs.Matching.{port_matches, standard_matches, match_number};
ghost use Rattle.topics.specs.Names.{is_broad, starts_with_dollar, bad_publish};
ghost use Rattle.topics.specs.Patterns.{valid_wildcards, pattern_refusal};
ghost use Rattle.topics.specs.Utf8.{is_utf8};

use topics::matching::{match_number, standard_matches, topic_matches};
use topics::names::{
    contains_invalid_publish_char, is_broad_wildcard_subscribe, starts_with_dollar,
};
use topics::patterns::{check_pattern, validate_mqtt_wildcard};
use topics::utf8::is_utf8;

// Whether bytes are UTF-8 (MQTT 3.1.1 section 1.5.3); a zero byte, which is U+0000, passes.
pub fn hub_is_utf8(bytes: &[u8]) -> bool
    ensures { result ≡ is_utf8 bytes.now }
{
    is_utf8(bytes)
}

// Whether a pattern's wildcards are well placed; no for an empty one.
pub fn hub_validate_mqtt_wildcard(pattern: &[u8]) -> bool
    ensures { result ≡ valid_wildcards pattern.now }
{
    validate_mqtt_wildcard(pattern)
}

// 0 for a pattern that `add_rule` takes, else 9, or 36 for one that is not UTF-8.
pub fn hub_pattern_refusal(pattern: &[u8]) -> u32
    ensures { result ≡ pattern_refusal pattern.now }
{
    match check_pattern(pattern) {
        Ok(()) => 0,
        Err(refusal) => refusal.number(),
    }
}

// The port's matcher, as the Rust answers on any pattern.
pub fn hub_topic_matches(topic: &[u8], pattern: &[u8]) -> bool
    ensures { result ≡ port_matches topic.now pattern.now }
{
    topic_matches(topic, pattern)
}

// The standard matcher: MQTT 3.1.1 section 4.7, with 4.7.2: a leading wildcard takes no name that begins with a dollar sign.
// An enum does not pass: 0 is no, 1 yes, 9 outside its domain.
pub fn hub_standard_matches(name: &[u8], pattern: &[u8]) -> u32
    ensures { result ≡ match_number (standard_matches name.now pattern.now) }
{
    match_number(standard_matches(name, pattern))
}

// Exactly `#`, `+` or `+/#`.
pub fn hub_is_broad_wildcard_subscribe(topic: &[u8]) -> bool
    ensures { result ≡ is_broad topic.now }
{
    is_broad_wildcard_subscribe(topic)
}

// A leading dollar.
pub fn hub_starts_with_dollar(topic: &[u8]) -> bool
    ensures { result ≡ starts_with_dollar topic.now }
{
    starts_with_dollar(topic)
}

// A zero byte, `+` or `#`.
pub fn hub_contains_invalid_publish_char(topic: &[u8]) -> bool
    ensures { result ≡ bad_publish topic.now }
{
    contains_invalid_publish_char(topic)
}
