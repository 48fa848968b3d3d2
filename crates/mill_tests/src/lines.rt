// The lines of statuses.
use board_base::MemorySink;
use endings::tell;
use mill_top::{LimitHit, Status};
use std::test::Fail;

// A limit that is passed, and its line.
const LIMITS: [(LimitHit, &str); 10] = [
    (
        LimitHit::Cells(67_108_865),
        "pcbmill: limit: Cells 67108865\n",
    ),
    (LimitHit::Side(32_769), "pcbmill: limit: Side 32769\n"),
    (
        LimitHit::Reach(500_050_000),
        "pcbmill: limit: Reach 500050000\n",
    ),
    (
        LimitHit::Reach(-500_050_000),
        "pcbmill: limit: Reach -500050000\n",
    ),
    (LimitHit::Islands, "pcbmill: limit: Islands\n"),
    (LimitHit::Objects, "pcbmill: limit: Objects\n"),
    (LimitHit::Vertices, "pcbmill: limit: Vertices\n"),
    (LimitHit::Holes, "pcbmill: limit: Holes\n"),
    (LimitHit::Probes(1681), "pcbmill: limit: Probes 1681\n"),
    (
        LimitHit::Tile {
            x: 500_000_001,
            y: -5,
        },
        "pcbmill: limit: Tile 500000001 -5\n",
    ),
];

#[test]
fn limits_have_lines(rt: HostRuntime) -> Result<(), Fail> {
    let alloc = rt.alloc();
    for (hit, text) in LIMITS {
        let mut sink = MemorySink::new(alloc);
        assert_eq!(rt;
            tell(alloc, Status::Limit(hit), &mut sink),
            Status::Limit(hit)
        );
        assert_eq!(rt; sink.bytes(), text.as_bytes());
        assert_eq!(rt; Status::Limit(hit).number(), 7);
    }
    Ok(())
}
