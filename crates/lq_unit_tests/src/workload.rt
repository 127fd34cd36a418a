use lq_workload::Workload;
use std::process::Abort;
use std::test::Fail;

/// A text's length, and the sum of each of its bytes times its place, from 1 on.
type Weight = (usize, u64);

fn assert_weight<R: Abort>(rt: &R, text: &str, expected: Weight) {
    let mut sum = 0_u64;
    for (place, byte) in text.as_bytes().iter().enumerate() {
        let weight = (place as u64).wrapping_add(1);
        sum = sum.wrapping_add(weight.wrapping_mul(u64::from(*byte)));
    }
    assert_eq!(rt; text.len(), expected.0);
    assert_eq!(rt; sum, expected.1);
}

/// The weights of the texts that another program generated.
#[test]
fn generates_what_the_drawn_numbers_say(rt: HostRuntime) -> Result<(), Fail> {
    let cases: [(u64, [Weight; 3]); 3] = [
        (
            0,
            [
                (97_305, 435_645_163_561),
                (98_048, 317_688_108_825),
                (4_470, 785_386_542),
            ],
        ),
        (
            7,
            [
                (97_305, 435_648_183_348),
                (98_160, 318_315_603_322),
                (4_466, 784_263_772),
            ],
        ),
        (
            1_000_000,
            [
                (97_305, 435_642_147_998),
                (98_013, 317_340_832_441),
                (4_467, 784_581_712),
            ],
        ),
    ];
    for (number, weights) in cases {
        let workload = Workload::generate(rt.alloc(), number)?;
        assert_weight(&rt, workload.objects.as_str(), weights[0]);
        assert_weight(&rt, workload.log.as_str(), weights[1]);
        assert_weight(&rt, workload.stream.as_str(), weights[2]);
    }
    Ok(())
}
