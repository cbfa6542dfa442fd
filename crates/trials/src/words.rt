// What a refusal tells: its number to users, and words to a person.
use refusals::Refusal;

#[test]
fn refusal_has_a_number_and_words(rt: HostRuntime) {
    assert_eq!(rt; Refusal::SameStation.number(), 10);
    assert_eq!(rt;
        Refusal::SameStation.advice(),
        "The giver is the taker. Name two stations."
    );
}
