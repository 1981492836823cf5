use rh_arguments::name_called;
use std::test::Fail;

const NAMES: &[(&[&str], &str)] = &[
    (&["rhset", "play", "f"], "rhset"),
    (&["/usr/local/bin/rhplay"], "rhplay"),
    (&["./a b"], "a b"),
    (&["", "rhset"], "rhplay"),
    (&[], "rhplay"),
];

#[test]
fn the_name_is_the_end_of_the_first_word(rt: HostRuntime) -> Result<(), Fail> {
    for &(words, name) in NAMES {
        let mut all = Vec::new(rt.alloc());
        for word in words {
            all.push(String::from_str(rt.alloc(), word)?)?;
        }
        assert_eq!(rt; name_called(&all, "rhplay"), name, "{words:?}");
    }
    Ok(())
}
