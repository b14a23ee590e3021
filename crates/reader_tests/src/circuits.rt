//! Product lists, needs and made jobs by value.

use patch_base::Need;
use rotation_list::{generate, need, print_products, read_circuit, read_list, statics};
use std::alloc::Global;
use std::process::Abort;
use std::test::Fail;

#[test]
fn reads_a_list(rt: HostRuntime) -> Result<(), Fail> {
    let alloc = rt.alloc();
    let read = read_list(alloc, b"products 2 1\nc a 2\n# b\nc b 3\n\nh -Z\ni -Y b 9")?;
    assert_eq!(rt; read.qubits, 1);
    assert_eq!(rt; read.hidden, 1);
    assert_eq!(rt; read.registers.as_slice().len(), 2);
    assert_eq!(rt; read.items.as_slice().len(), 2);
    Ok(())
}

// Asserts what the static products of a circuit text are printed as, after three other bytes.
fn prints(rt: &impl Abort, alloc: Global, text: &[u8], wanted: &[u8]) -> Result<(), Fail> {
    let circuit = read_circuit(alloc, text)?;
    let products = statics(alloc, &circuit)?;
    let mut printed = b"abc".to_vec(alloc)?;
    print_products(alloc, &circuit, &products, &mut printed)?;
    assert_eq!(rt; printed.as_slice(), wanted);
    Ok(())
}

#[test]
fn prints_after_what_is_there(rt: HostRuntime) -> Result<(), Fail> {
    prints(
        &rt,
        rt.alloc(),
        b"OPENQASM 2.0; include \"qelib1.inc\"; qreg q[1]; creg c[1]; s q[0]; h q[0]; t q[0]; measure q[0]->c[0];",
        b"abcproducts 1 1\nc c 1\nr -Y\nm -Y c 0\n",
    )
}

// What a circuit text needs of a layout.
fn needs(alloc: Global, text: &[u8]) -> Result<Need, Fail> {
    let circuit = read_circuit(alloc, text)?;
    let products = statics(alloc, &circuit)?;
    Ok(need(alloc, &circuit, &products)?)
}

#[test]
fn needs_the_qubits_of_products(rt: HostRuntime) -> Result<(), Fail> {
    let found = needs(rt.alloc(), b"products 1 3\nc c 1\nr +ZII\nm +IIX c 0\n")?;
    assert_eq!(rt; found.qubits, 3);
    assert_eq!(rt; found.used.as_slice(), [true, false, true].as_slice());
    assert!(rt; found.rotations);
    Ok(())
}

#[test]
fn settled_products_need_nothing(rt: HostRuntime) -> Result<(), Fail> {
    let found = needs(rt.alloc(), b"products 2 2\nc c 1\nm +ZI c 0\ni +IX c 1\n")?;
    assert_eq!(rt; found.used.as_slice(), [true, false].as_slice());
    assert!(rt; !found.rotations);
    Ok(())
}

#[test]
fn makes_a_job(rt: HostRuntime) -> Result<(), Fail> {
    let job = generate(rt.alloc(), 1)?;
    assert_eq!(rt; job.circuit.items.as_slice().len(), 9);
    assert_eq!(rt;
        job.outcomes.as_slice(),
        b"outcomes 1\nm 0 0\nm 1 1\nm 2 0\nm 3 1\nm 4 1\nm 5 1\nm 6 0\nm 7 0\nf 0 0\n".as_slice()
    );
    assert_eq!(rt; job.layout.into_vec().len(), 171);
    Ok(())
}
