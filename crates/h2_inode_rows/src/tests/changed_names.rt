use super::changed_inodes::FEW;
use super::judging::{NAME_CHECK, NAME_KEY, judged, judged_spelling, to_name};
use h2_inode::check_of;
use h2_ref::{Kind, Why};
use std::test::Fail;

#[test]
fn each_changed_byte_of_a_name_block_is_told(rt: HostRuntime) -> Result<(), Fail> {
    let r = to_name(NAME_KEY, 65, NAME_CHECK);
    let mut whole = [0; 1024];
    for at in 0..65usize {
        whole[at] = b'a';
    }
    for at in 0..1024usize {
        let mut b = whole;
        for value in FEW {
            if value != whole[at] {
                b[at] = value;
                // Another name has other keys, and no byte may stand behind it.
                assert_eq!(rt;
                    judged_spelling(&r, &b),
                    Some(Some(Why::Name)),
                    "byte {at} is {value}"
                );
            }
        }
        let other = Why::Check {
            want: r.check,
            got: check_of(Kind::Dirent, &b),
        };
        assert_eq!(rt; judged(&r, &b), Some(Some(other)), "byte {at}");
    }
    Ok(())
}
